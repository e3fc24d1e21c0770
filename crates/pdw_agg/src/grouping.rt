//! Groups of rows, partial rows, and groups by partial rows.

ghost use Rattle.std.specs.Prelude.{◌≡◌, ◌∷◌, [], All, IfOk, map};
ghost use Rattle.pdw_agg.specs.Columns.{final_schema, grouped_schema, partial_schema};
ghost use Rattle.pdw_agg.specs.Fitting.{CanFinish, CanGroup, CanKeep};
ghost use Rattle.pdw_agg.specs.Grouping.{final_over, grouped_over, partial_over};
ghost use Rattle.pdw_agg.specs.Made as made_spec;
ghost use Rattle.pdw_algebra.specs.Schema.{rising};
ghost use Rattle.pdw_base.specs.SameBag.{SameBag};
ghost use Rattle.pdw_base.specs.Schema.{FitsColumns};
ghost use Rattle.pdw_expr.specs.Parts.{parts};

use crate::cells::made_row;
use crate::columns::made_columns;
use crate::stage::Stage;
use pdw_base::{Bag, ColId, NoMemory, Row, Schema};
use pdw_expr::Agg;
use pdw_keys::{KeyPlaces, RowIndex, index_rows};
use std::alloc::Global;

fn references<'a>(alloc: Global, rows: &'a [Row]) -> Result<Vec<&'a Row>, NoMemory>
    ensures { IfOk result (λ all. map (λ row. row.now) all.items ≡ rows.now) }
{
    let mut all = Vec::with_capacity(alloc, rows.len())?;
    for row in rows {
        all.push(row)?;
    }
    Ok(all)
}

// The row of one group of all rows.
fn row_of_all<'a>(
    alloc: Global,
    made: &Schema,
    stage: Stage,
    keys: &[ColId],
    aggs: &'a [Agg],
    s: &Schema,
    rows: &'a [Row],
) -> Result<Bag, NoMemory>
    ensures { IfOk result (λ bag. bag ≡ made_spec.row_of made.now stage keys.now aggs.now s.now rows.now ∷ []) }
{
    let all = references(alloc, rows)?;
    let row = made_row(alloc, made, stage, keys, aggs, s, all.as_slice())?;
    let mut bag = Bag::new(alloc);
    bag.push(row)?;
    Ok(bag)
}

// A row for each key of the index.
fn rows_of_index<'a>(
    alloc: Global,
    made: &Schema,
    stage: Stage,
    keys: &[ColId],
    aggs: &'a [Agg],
    s: &Schema,
    index: &RowIndex<'a>,
) -> Result<Bag, NoMemory>
    ensures { IfOk result (λ bag. bag ≡ map (made_spec.row_of made.now stage keys.now aggs.now s.now) (map (λ entry. entry.1) index.now)) }
{
    let mut bag = Bag::new(alloc);
    for place in 0..index.len() {
        match index.part(place) {
            Some(part) => bag.push(made_row(alloc, made, stage, keys, aggs, s, part.as_slice())?)?,
            None => {}
        }
    }
    Ok(bag)
}

// A row for each key of the rows.
fn rows_by_key<'a>(
    alloc: Global,
    made: &Schema,
    stage: Stage,
    keys: &[ColId],
    aggs: &'a [Agg],
    s: &Schema,
    rows: &'a [Row],
) -> Result<Bag, NoMemory>
    ensures { IfOk result (λ bag. SameBag bag (map (made_spec.row_of made.now stage keys.now aggs.now s.now) (parts (made_spec.key_over keys.now s.now) rows.now))) }
{
    let places = KeyPlaces::new(alloc, s, keys)?;
    let index = index_rows(alloc, &places, rows)?;
    rows_of_index(alloc, made, stage, keys, aggs, s, &index)
}

// A row for each group; without keys there is exactly one group.
fn made_rows<'a>(
    alloc: Global,
    stage: Stage,
    rows: &'a [Row],
    s: &Schema,
    keys: &[ColId],
    aggs: &'a [Agg],
) -> Result<Bag, NoMemory>
    ensures { IfOk result (λ bag. SameBag bag (made_spec.rows_of (rising (made_spec.made_columns keys.now aggs.now)) stage keys.now aggs.now s.now rows.now)) }
{
    let made = made_columns(alloc, keys, aggs)?;
    match keys {
        [] => row_of_all(alloc, &made, stage, keys, aggs, s, rows),
        _ => rows_by_key(alloc, &made, stage, keys, aggs, s, rows),
    }
}

/// A row for each group of the rows: its keys and the values of its aggregates, over `grouped_schema`. Two NULLs are one key,
/// and without keys there is exactly one group, also over no row. Groups stand in no promised order.
///
/// The rows fit the schema where the input fits its own and the aggregates have kinds that a table's columns may have.
pub fn group(
    alloc: Global,
    input: &Bag,
    s: &Schema,
    keys: &[ColId],
    aggs: &[Agg],
) -> Result<Bag, NoMemory>
    ensures rows { IfOk result (λ bag. SameBag bag (grouped_over keys.now aggs.now s.now input.now)) }
    ensures fits { IfOk result (λ bag. CanGroup keys.now aggs.now s.now input.now → All (FitsColumns (grouped_schema keys.now aggs.now s.now)) bag) }
{
    made_rows(alloc, Stage::Whole, input.rows(), s, keys, aggs)
}

/// A partial row for each group of the rows: its keys and what its aggregates keep of these rows, over `partial_schema`, in
/// which counts and sums are wide numbers.
pub fn partial(
    alloc: Global,
    input: &Bag,
    s: &Schema,
    keys: &[ColId],
    aggs: &[Agg],
) -> Result<Bag, NoMemory>
    ensures rows { IfOk result (λ bag. SameBag bag (partial_over keys.now aggs.now s.now input.now)) }
    ensures fits { IfOk result (λ bag. CanKeep keys.now aggs.now s.now input.now → All (FitsColumns (partial_schema keys.now aggs.now s.now)) bag) }
{
    made_rows(alloc, Stage::Partial, input.rows(), s, keys, aggs)
}

/// A row for each group of partial rows: its keys and the values of its aggregates by what they kept, over `final_schema`.
/// Of the partial rows of all parts together it makes the groups of all rows: `merged_partials_are_the_groups`.
pub fn merge_final(
    alloc: Global,
    input: &Bag,
    s: &Schema,
    keys: &[ColId],
    aggs: &[Agg],
) -> Result<Bag, NoMemory>
    ensures rows { IfOk result (λ bag. SameBag bag (final_over keys.now aggs.now s.now input.now)) }
    ensures fits { IfOk result (λ bag. CanFinish keys.now aggs.now s.now input.now → All (FitsColumns (final_schema keys.now aggs.now s.now)) bag) }
{
    made_rows(alloc, Stage::Final, input.rows(), s, keys, aggs)
}
