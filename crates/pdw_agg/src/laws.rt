//! The laws, each the contract of a function.

ghost use Rattle.std.specs.Prelude.{◌≡◌, All, List, map};
ghost use Rattle.pdw_agg.specs.Columns.{OutsDiffer, final_schema, grouped_schema, partial_schema};
ghost use Rattle.pdw_agg.specs.Fitting.{CanFinish, CanGroup};
ghost use Rattle.pdw_agg.specs.Grouping.{IsPartialOver, final_over, grouped_over, partial_over};
ghost use Rattle.pdw_base.specs.SameBag.{SameBag};
ghost use Rattle.pdw_base.specs.Schema.{Columns, FitsColumns, cell};
ghost use Rattle.pdw_base.specs.declared.schema.ColId.{ColId as Column};
ghost use Rattle.pdw_base.specs.declared.value.Value.{Value as SqlValue};
ghost use Rattle.pdw_expr.specs.Rows.{grouped};
ghost use Rattle.pdw_expr.specs.declared.agg.Agg.{Agg as Aggregate};
ghost use Rattle.pdw_partial.specs.Partial.{KeysApart, final_rows, partial_rows};

/// What is merged from the partial rows of any one or more bags, all together, is what is grouped over the sum of the bags.
/// No aggregate's column is a key.
pub fn merged_partials_are_the_groups()
    ensures { (keys : List Column) (aggs : List Aggregate) (columns : Columns) → KeysApart keys aggs → (input partials : List (List SqlValue)) → IsPartialOver keys aggs columns input partials → final_over keys aggs (partial_schema keys aggs columns) partials ≡ grouped_over keys aggs columns input }
{}

/// The rows of equal bags give one list of rows: the order of the input plays no part.
pub fn groupings_see_no_order()
    ensures grouped { (keys : List Column) (aggs : List Aggregate) (columns : Columns) (rows others : List (List SqlValue)) → SameBag rows others → grouped_over keys aggs columns rows ≡ grouped_over keys aggs columns others }
    ensures partials { (keys : List Column) (aggs : List Aggregate) (columns : Columns) (rows others : List (List SqlValue)) → SameBag rows others → partial_over keys aggs columns rows ≡ partial_over keys aggs columns others }
    ensures finals { (keys : List Column) (aggs : List Aggregate) (columns : Columns) (rows others : List (List SqlValue)) → SameBag rows others → final_over keys aggs columns rows ≡ final_over keys aggs columns others }
{}

/// The rows that a grouping makes stand for the rows of its definition.
pub fn made_rows_read_back()
    ensures grouped { (keys : List Column) (aggs : List Aggregate) (columns : Columns) (rows : List (List SqlValue)) → map (cell (grouped_schema keys aggs columns)) (grouped_over keys aggs columns rows) ≡ grouped keys aggs (map (cell columns) rows) }
    ensures partials { (keys : List Column) (aggs : List Aggregate) (columns : Columns) (rows : List (List SqlValue)) → map (cell (partial_schema keys aggs columns)) (partial_over keys aggs columns rows) ≡ partial_rows keys aggs (map (cell columns) rows) }
    ensures finals { (keys : List Column) (aggs : List Aggregate) (columns : Columns) (rows : List (List SqlValue)) → map (cell (final_schema keys aggs columns)) (final_over keys aggs columns rows) ≡ final_rows keys aggs (map (cell columns) rows) }
{}

/// The columns of final rows are those of the groups, with their kinds, and partial rows can be finished to rows that fit,
/// where the rows could be grouped: no aggregate's column is a key, and they differ from each other.
pub fn final_rows_have_the_columns_of_groups()
    ensures schema { (keys : List Column) (aggs : List Aggregate) (columns : Columns) → KeysApart keys aggs → OutsDiffer aggs → final_schema keys aggs (partial_schema keys aggs columns) ≡ grouped_schema keys aggs columns }
    ensures can_finish { (keys : List Column) (aggs : List Aggregate) (columns : Columns) (rows partials : List (List SqlValue)) → OutsDiffer aggs → CanGroup keys aggs columns rows → All (FitsColumns (partial_schema keys aggs columns)) partials → CanFinish keys aggs (partial_schema keys aggs columns) partials }
{}
