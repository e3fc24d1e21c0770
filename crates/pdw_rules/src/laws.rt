//! The laws, each the contract of a function.

ghost use Rattle.std.specs.Prelude.{◌≡◌, ℕ, ◌≤◌, List, Option, map, true};
ghost use Rattle.std.specs.List.{list_any};
ghost use Rattle.pdw_base.specs.SameBag.{SameBag};
ghost use Rattle.pdw_base.specs.Schema.{Env};
ghost use Rattle.pdw_base.specs.declared.node.Node.{Node as AnyNode};
ghost use Rattle.pdw_base.specs.declared.schema.ColId.{ColId as Column};
ghost use Rattle.pdw_catalog.specs.Appliance.{Contents, IsSound, whole_of};
ghost use Rattle.pdw_catalog.specs.Catalog.{table_named};
ghost use Rattle.pdw_expr.specs.Rows.{filtered, grouped, joined, projected, scanned};
ghost use Rattle.pdw_expr.specs.declared.agg.Agg.{Agg as Aggregate};
ghost use Rattle.pdw_expr.specs.declared.agg.JoinKind.{JoinKind as KindOfJoin};
ghost use Rattle.pdw_expr.specs.declared.cond.Cond.{Cond as Condition};
ghost use Rattle.pdw_expr.specs.declared.scalar.Scalar.{Scalar as Expression};
ghost use Rattle.pdw_groups.specs.Columns.{hash_in, replicated_in};
ghost use Rattle.pdw_move.specs.Move.{property_after, property_before};
ghost use Rattle.pdw_move.specs.declared.kinds.Move.{Move as MoveOf};
ghost use Rattle.pdw_move.specs.declared.kinds.Prop.{Prop as Property};
ghost use Rattle.pdw_partial.specs.Partial.{KeysApart, final_rows, partial_rows};
ghost use Rattle.pdw_rules.specs.Rules.{filter_rule, group_rule, is_free, is_same, join_rule, may_have, partial_rule, project_rule, properties_of, scan_rule};
ghost use Rattle.pdw_rules.specs.Scans.{AreDifferent, scanned_at};
ghost use Rattle.pdw_rules.specs.Stands.{HasNoneOf, IsInside, PlacedRows, StandsFor, StandsForPartials, after_move, made_at, returned};

/// Each of the seven moves takes rows that stand for a bag under the property before it to rows that stand for the same bag
/// under the property after it, and brings no row to a node outside. Of equal bags it makes equal bags.
pub fn moves_bring_rows_to_their_property()
    ensures stands { (n : ℕ) → 1 ≤ n → (move : MoveOf) (rows : PlacedRows) (bag : List Env) → IsInside (property_before move) rows → StandsFor n (property_before move) rows bag → StandsFor n (property_after move) (after_move n move rows) bag }
    ensures bags { (n : ℕ) (move : MoveOf) (rows others : PlacedRows) → ((place : AnyNode) → SameBag (rows place) (others place)) → (place : AnyNode) → SameBag (after_move n move rows place) (after_move n move others place) }
    ensures inside { (n : ℕ) (move : MoveOf) (rows : PlacedRows) → IsInside (property_after move) (after_move n move rows) }
{}

/// A free change keeps what rows stand for, without any row moved: by a hash they are spread, and of replicated rows those
/// of one node are enough. What is made at a site is nowhere else.
pub fn free_changes_keep_rows()
    ensures stands { (n : ℕ) → 1 ≤ n → (p q : Property) → is_free p q ≡ true → (rows : PlacedRows) (bag : List Env) → StandsFor n p rows bag → StandsFor n q (made_at q rows) bag }
    ensures inside { (p : Property) (rows : PlacedRows) → IsInside p (made_at p rows) }
{}

/// What rows stand for is a matter of bags: rows that are equal bags at each node stand for each equal bag.
pub fn standing_sees_no_order()
    ensures { (n : ℕ) (bag other : List Env) → SameBag bag other → (rows others : PlacedRows) → ((place : AnyNode) → SameBag (rows place) (others place)) → (p : Property) → StandsFor n p rows bag → StandsFor n p others other }
{}

/// Under every property what is returned to the client is the bag that the rows stand for.
pub fn returned_rows_are_the_bag()
    ensures { (n : ℕ) → 1 ≤ n → (p : Property) (rows : PlacedRows) (bag : List Env) → StandsFor n p rows bag → SameBag (returned n p rows) bag }
{}

/// What a scan reads at each node of a sound appliance stands for what it reads of the whole table: by the hash of the column
/// that is read by which the table is placed, spread where none is, or replicated. The columns that are read have different
/// numbers.
pub fn scans_stand_by_their_placing()
    ensures { (contents : Contents) → IsSound contents → (cols : List (Column × ℕ)) → AreDifferent cols → (table : List ℕ) (p : Property) → scan_rule (hash_in (table_named table contents.tables) cols) (replicated_in (table_named table contents.tables)) p ≡ true → StandsFor contents.nodes p (made_at p (scanned_at contents table cols)) (map (scanned cols) (whole_of table contents)) }
{}

/// Where rows stand for a bag and a filter is applied at each node, what it gives stands for the filtered bag, under the same
/// property.
pub fn filters_keep_properties()
    ensures { (n : ℕ) (conds : List Condition) (p result : Property) → filter_rule p result ≡ true → (rows : PlacedRows) (bag : List Env) → StandsFor n p rows bag → StandsFor n result (made_at result (λ place. filtered conds (rows place))) (filtered conds bag) }
{}

/// A projection keeps a property too, but for the hash of a column that it does not pass through: then its rows are spread.
pub fn projections_keep_properties_of_their_columns()
    ensures { (n : ℕ) (items : List (Column × Option Expression)) (p result : Property) → project_rule items p result ≡ true → (rows : PlacedRows) (bag : List Env) → StandsFor n p rows bag → StandsFor n result (made_at result (λ place. map (projected items) (rows place))) (map (projected items) bag) }
{}

/// A join that is applied at each node is the join of the whole sides, under each rule: both sides by the hash of columns that
/// a conjunct compares by `=`, one side replicated, or both sides whole at the same nodes. Rows without partner and NULLs
/// in the compared columns count. The column by whose hash one side stands is not of the other side.
pub fn joins_stand_by_their_rules()
    ensures { (n : ℕ) → 1 ≤ n → (kind : KindOfJoin) (conds : List Condition) (p q result : Property) → join_rule kind conds p q result ≡ true → (left right : PlacedRows) (ls rs : List Env) → StandsFor n p left ls → StandsFor n q right rs → HasNoneOf p rs → HasNoneOf q ls → StandsFor n result (made_at result (λ place. joined kind conds (left place) (right place))) (joined kind conds ls rs) }
{}

/// Groups that are made at each node are the groups of all rows where the rows stand by the hash of a key, or each node of
/// the site has all rows; so are final rows. No aggregate's column is a key.
pub fn groups_stand_by_their_keys()
    ensures groups { (n : ℕ) (keys : List Column) (aggs : List Aggregate) → KeysApart keys aggs → (p result : Property) → group_rule keys p result ≡ true → (rows : PlacedRows) (bag : List Env) → StandsFor n p rows bag → StandsFor n result (made_at result (λ place. grouped keys aggs (rows place))) (grouped keys aggs bag) }
    ensures finals { (n : ℕ) (keys : List Column) (aggs : List Aggregate) → KeysApart keys aggs → (p result : Property) → group_rule keys p result ≡ true → (rows : PlacedRows) (bag : List Env) → StandsFor n p rows bag → StandsFor n result (made_at result (λ place. final_rows keys aggs (rows place))) (final_rows keys aggs bag) }
{}

/// Partial rows that are made at each node stand for partial rows that are admitted for the bag, however its rows stand: those
/// of all nodes together, or those of the whole bag where each node of the site has it. By the hash of a column that is no
/// key they are spread.
pub fn partial_rows_stand_for_admitted_ones()
    ensures { (n : ℕ) → 1 ≤ n → (keys : List Column) (aggs : List Aggregate) → KeysApart keys aggs → (p result : Property) → partial_rule keys p result ≡ true → (rows : PlacedRows) (bag : List Env) → StandsFor n p rows bag → StandsForPartials n keys aggs result (made_at result (λ place. partial_rows keys aggs (rows place))) bag }
{}

/// The properties of a group are exactly those that it may have: by the hash of an interesting column alone.
pub fn a_groups_properties_are_those_it_may_have()
    ensures { (interesting : List Column) (p : Property) → list_any (is_same p) (properties_of interesting) ≡ may_have interesting p }
{}
