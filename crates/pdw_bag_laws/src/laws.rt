//! The laws, each the contract of a function.

ghost use Rattle.std.specs.List.{AllByRecursion};
ghost use Rattle.std.specs.Prelude.{◌≡◌, List, [], Option, map};
ghost use Rattle.pdw_base.specs.SameBag.{SameBag};
ghost use Rattle.pdw_base.specs.Schema.{Env};
ghost use Rattle.pdw_base.specs.declared.schema.ColId.{ColId as Column};
ghost use Rattle.pdw_base.specs.declared.value.Value.{Value as SqlValue};
ghost use Rattle.pdw_expr.specs.Aggregate.{aggregated, partial_value};
ghost use Rattle.pdw_expr.specs.Parts.{each_once, parts};
ghost use Rattle.pdw_expr.specs.Rows.{filtered, group_row, grouped, joined, key_of, products, projected};
ghost use Rattle.pdw_expr.specs.declared.agg.Agg.{Agg as Aggregate};
ghost use Rattle.pdw_expr.specs.declared.agg.AggKind.{AggKind as KindOfAggregate};
ghost use Rattle.pdw_expr.specs.declared.agg.JoinKind.{JoinKind as KindOfJoin};
ghost use Rattle.pdw_expr.specs.declared.cond.Cond.{Cond as Condition};
ghost use Rattle.pdw_expr.specs.declared.scalar.Scalar.{Scalar as Expression};

/// Operators do not see the order of rows: of equal bags, filters, projections, joins of each kind and products make equal
/// bags.
pub fn operators_keep_bags_equal()
    ensures filtered { (conds : List Condition) (rows others : List Env) → SameBag rows others → SameBag (filtered conds rows) (filtered conds others) }
    ensures projected { (items : List (Column × Option Expression)) (rows others : List Env) → SameBag rows others → SameBag (map (projected items) rows) (map (projected items) others) }
    ensures joined { (kind : KindOfJoin) (conds : List Condition) (left lefts right rights : List Env) → SameBag left lefts → SameBag right rights → SameBag (joined kind conds left right) (joined kind conds lefts rights) }
    ensures products { (leaves : List (List Env × List Env)) → AllByRecursion (λ leaf. SameBag leaf.0 leaf.1) leaves → SameBag (products (map (λ leaf. leaf.0) leaves)) (products (map (λ leaf. leaf.1) leaves)) }
{}

/// Groups of equal bags are the same list, since they stand by rising keys and their aggregates do not see the order of
/// rows; so are the rows that DISTINCT keeps, by the values of some columns, and the rows of equal bags, each once.
pub fn groups_of_equal_bags_are_one_list()
    ensures grouped { (keys : List Column) (aggs : List Aggregate) (rows others : List Env) → SameBag rows others → grouped keys aggs rows ≡ grouped keys aggs others }
    ensures distinct { (outs : List Column) (rows others : List Env) → SameBag rows others → map (group_row outs []) (parts (key_of outs) rows) ≡ map (group_row outs []) (parts (key_of outs) others) }
    ensures once { (rows others : List (List SqlValue)) → SameBag rows others → each_once rows ≡ each_once others }
{}

/// An aggregate has one value over equal bags, over a whole group and over a part of one.
pub fn aggregates_of_equal_bags_are_equal()
    ensures whole { (kind : KindOfAggregate) (values others : List SqlValue) → SameBag values others → aggregated kind values ≡ aggregated kind others }
    ensures part { (kind : KindOfAggregate) (values others : List SqlValue) → SameBag values others → partial_value kind values ≡ partial_value kind others }
{}
