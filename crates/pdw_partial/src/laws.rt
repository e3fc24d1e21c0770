//! The laws, each the contract of a function.

ghost use Rattle.std.specs.List.{AllByRecursion, flat_map};
ghost use Rattle.std.specs.Prelude.{◌≡◌, ◌≢◌, List, []};
ghost use Rattle.pdw_base.specs.SameBag.{SameBag};
ghost use Rattle.pdw_base.specs.Schema.{Env};
ghost use Rattle.pdw_base.specs.declared.schema.ColId.{ColId as Column};
ghost use Rattle.pdw_expr.specs.Rows.{grouped};
ghost use Rattle.pdw_expr.specs.declared.agg.Agg.{Agg as Aggregate};
ghost use Rattle.pdw_partial.specs.Partial.{IsPartial, KeysApart, final_rows, partial_rows, together};

/// Final rows over admitted partial rows are the groups of the input, as a list: with keys and without, over no row too,
/// where NULLs are keys, values or both, and where a sum leaves 64 bits on the way. No aggregate's column is a key.
pub fn final_of_partials_is_the_groups()
    ensures { (keys : List Column) (aggs : List Aggregate) → KeysApart keys aggs → (input partials : List Env) → IsPartial keys aggs input partials → final_rows keys aggs partials ≡ grouped keys aggs input }
{}

/// The partial rows of a bag as one part are admitted for it.
pub fn partials_of_one_bag_are_admitted()
    ensures { (keys : List Column) (aggs : List Aggregate) (input : List Env) → IsPartial keys aggs input (partial_rows keys aggs input) }
{}

/// For one or more bags that add up to the input, what is admitted for each is admitted together: of each bag any
/// admitted partial rows, or its own. Only bags matter: neither the order of the input nor that of the partial rows does.
pub fn admitted_partials_add_up()
    ensures admitted { (keys : List Column) (aggs : List Aggregate) (pairs : List (List Env × List Env)) (input : List Env) → pairs ≢ [] → SameBag (flat_map (λ pair. pair.0) pairs) input → AllByRecursion (λ pair. IsPartial keys aggs pair.0 pair.1) pairs → IsPartial keys aggs input (flat_map (λ pair. pair.1) pairs) }
    ensures parts { (keys : List Column) (aggs : List Aggregate) (parts : List (List Env)) (input : List Env) → parts ≢ [] → SameBag (together parts) input → IsPartial keys aggs input (flat_map (partial_rows keys aggs) parts) }
    ensures bags { (keys : List Column) (aggs : List Aggregate) (input other partials others : List Env) → SameBag input other → SameBag partials others → IsPartial keys aggs input partials → IsPartial keys aggs other others }
{}

/// The partial rows of equal bags are the same list, and so are the final rows.
pub fn partial_and_final_rows_see_no_order()
    ensures partial_rows { (keys : List Column) (aggs : List Aggregate) (rows others : List Env) → SameBag rows others → partial_rows keys aggs rows ≡ partial_rows keys aggs others }
    ensures final_rows { (keys : List Column) (aggs : List Aggregate) (rows others : List Env) → SameBag rows others → final_rows keys aggs rows ≡ final_rows keys aggs others }
{}
