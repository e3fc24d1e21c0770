//! Rows of groups.

ghost use Rattle.std.specs.Prelude.{◌≡◌, ◌==◌, ◌++◌, ◌∷◌, [], IfOk, map};
ghost use Rattle.std.specs.List.{filter, list_any};
ghost use Rattle.pdw_base.specs.Schema.{cell, row_over};
ghost use Rattle.pdw_interpreter.specs.Relation as spec;
ghost use Rattle.pdw_expr.specs.Parts as parts;
ghost use Rattle.pdw_expr.specs.Rows as operators;

use crate::cells::{column, computed, or_else};
use crate::pairs::copies;
use crate::relation::Relation;
use pdw_algebra::schema_over;
use pdw_base::{ColId, Kind, NoMemory, Row, Schema, Value};
use pdw_expr::{Agg, Scalar, aggregated, each_once, is_same_row};
use sqlite_items::Items;
use std::alloc::Global;

// ---- groups

// What a row is grouped by.
fn key_of(alloc: Global, keys: &[ColId], columns: &Schema, row: &Row) -> Result<Row, NoMemory>
    ensures { IfOk result (λ key. key ≡ operators.key_of keys.now (cell columns.now row.now)) }
{
    let mut values = Vec::with_capacity(alloc, keys.len())?;
    for key in keys {
        values.push(column(alloc, *key, columns, row)?)?;
    }
    Ok(Row::from_values(values))
}

fn keys_of(
    alloc: Global,
    keys: &[ColId],
    columns: &Schema,
    rows: &[Row],
) -> Result<Items<Row>, NoMemory>
    ensures { IfOk result (λ found. found ≡ map (spec.key_over columns.now keys.now) rows.now) }
{
    let mut found = Items::new(alloc);
    for row in rows {
        found.push(key_of(alloc, keys, columns, row)?)?;
    }
    Ok(found)
}

// The rows with this key, in their order.
fn part_of(
    alloc: Global,
    keys: &[ColId],
    columns: &Schema,
    rows: &[Row],
    key: &Row,
) -> Result<Items<Row>, NoMemory>
    ensures { IfOk result (λ part. part ≡ filter (λ row. parts.same_row (spec.key_over columns.now keys.now row) key.now) rows.now) }
{
    let mut part = Items::new(alloc);
    for row in rows {
        let own = key_of(alloc, keys, columns, row)?;
        if is_same_row(&own, key) {
            part.push(row.try_copy(alloc)?)?;
        }
    }
    Ok(part)
}

// The rows in parts of equal keys, by rising keys.
fn parts_of(
    alloc: Global,
    keys: &[ColId],
    columns: &Schema,
    rows: &[Row],
) -> Result<Items<Items<Row>>, NoMemory>
    ensures { IfOk result (λ found. found ≡ parts.parts (spec.key_over columns.now keys.now) rows.now) }
{
    let all = keys_of(alloc, keys, columns, rows)?;
    let once = each_once(alloc, all.as_slice())?;
    let mut found = Items::new(alloc);
    for key in once.as_slice() {
        found.push(part_of(alloc, keys, columns, rows, key)?)?;
    }
    Ok(found)
}

// One group of all rows.
fn whole(alloc: Global, rows: &[Row]) -> Result<Items<Items<Row>>, NoMemory>
    ensures { IfOk result (λ found. found ≡ rows.now ∷ []) }
{
    let mut found = Items::new(alloc);
    found.push(copies(alloc, rows)?)?;
    Ok(found)
}

// The rows of each group; without keys there is exactly one.
fn groups(
    alloc: Global,
    keys: &[ColId],
    columns: &Schema,
    rows: &[Row],
) -> Result<Items<Items<Row>>, NoMemory>
    ensures { IfOk result (λ found. found ≡ parts.groups keys.now (spec.key_over columns.now keys.now) rows.now) }
{
    match keys {
        [] => whole(alloc, rows),
        _ => parts_of(alloc, keys, columns, rows),
    }
}

// ---- the row of a group

fn is_key(keys: &[ColId], c: ColId) -> bool
    ensures { result ≡ list_any (λ key. key.0 == c.0) keys.now }
{
    keys.iter().any(|key| key.0 == c.0)
}

// The value of a column in the first row, NULL where there is no row.
fn first_cell(alloc: Global, columns: &Schema, group: &[Row], c: ColId) -> Result<Value, NoMemory>
    ensures { IfOk result (λ value. value ≡ operators.first_row (map (cell columns.now) group.now) c) }
{
    match group {
        [] => Ok(Value::Null),
        [first, ..] => column(alloc, c, columns, first),
    }
}

// The value of a key, NULL where the column is none.
fn key_cell(
    alloc: Global,
    keys: &[ColId],
    columns: &Schema,
    group: &[Row],
    c: ColId,
) -> Result<Value, NoMemory>
    ensures { IfOk result (λ value. value ≡ operators.key_cells keys.now (operators.first_row (map (cell columns.now) group.now)) c) }
{
    if is_key(keys, c) {
        first_cell(alloc, columns, group, c)
    } else {
        Ok(Value::Null)
    }
}

// The value of an aggregate's argument. COUNT of `*` has none: it counts rows.
fn argument(
    alloc: Global,
    arg: &Option<Scalar>,
    columns: &Schema,
    row: &Row,
) -> Result<Value, NoMemory>
    ensures { IfOk result (λ value. value ≡ operators.argument arg.now (cell columns.now row.now)) }
{
    match arg {
        Some(e) => computed(alloc, e, columns, row),
        None => Ok(Value::Null),
    }
}

fn arguments(
    alloc: Global,
    arg: &Option<Scalar>,
    columns: &Schema,
    group: &[Row],
) -> Result<Items<Value>, NoMemory>
    ensures { IfOk result (λ values. values ≡ map (operators.argument arg.now) (map (cell columns.now) group.now)) }
{
    let mut values = Items::new(alloc);
    for row in group {
        values.push(argument(alloc, arg, columns, row)?)?;
    }
    Ok(values)
}

// The value of an aggregate over a group.
fn aggregate_value(
    alloc: Global,
    agg: &Agg,
    columns: &Schema,
    group: &[Row],
) -> Result<Value, NoMemory>
    ensures { IfOk result (λ value. value ≡ spec.aggregate_value agg.now (map (cell columns.now) group.now)) }
{
    let values = arguments(alloc, &agg.arg, columns, group)?;
    aggregated(alloc, agg.kind, values.as_slice())
}

// The value of the aggregate that makes a column, NULL where none does.
fn aggregate_cell(
    alloc: Global,
    aggs: &[Agg],
    columns: &Schema,
    group: &[Row],
    c: ColId,
) -> Result<Value, NoMemory>
    ensures { IfOk result (λ value. value ≡ operators.aggregate_cells aggs.now (map (cell columns.now) group.now) c) }
{
    for agg in aggs {
        if agg.out.0 == c.0 {
            return aggregate_value(alloc, agg, columns, group);
        }
    }
    Ok(Value::Null)
}

fn group_cell(
    alloc: Global,
    keys: &[ColId],
    aggs: &[Agg],
    columns: &Schema,
    group: &[Row],
    c: ColId,
) -> Result<Value, NoMemory>
    ensures { IfOk result (λ value. value ≡ operators.group_row keys.now aggs.now (map (cell columns.now) group.now) c) }
{
    let key = key_cell(alloc, keys, columns, group, c)?;
    let aggregate = aggregate_cell(alloc, aggs, columns, group, c)?;
    Ok(or_else(key, aggregate))
}

fn group_row(
    alloc: Global,
    made: &Schema,
    keys: &[ColId],
    aggs: &[Agg],
    columns: &Schema,
    group: &[Row],
) -> Result<Row, NoMemory>
    ensures { IfOk result (λ row. row ≡ row_over made.now (operators.group_row keys.now aggs.now (map (cell columns.now) group.now))) }
{
    let mut values = Vec::with_capacity(alloc, made.cols().len())?;
    for column in made.cols() {
        values.push(group_cell(alloc, keys, aggs, columns, group, column.0)?)?;
    }
    Ok(Row::from_values(values))
}

fn group_rows(
    alloc: Global,
    made: &Schema,
    keys: &[ColId],
    aggs: &[Agg],
    columns: &Schema,
    groups: &[Items<Row>],
) -> Result<Items<Row>, NoMemory>
    ensures { IfOk result (λ rows. rows ≡ map (λ group. row_over made.now (operators.group_row keys.now aggs.now (map (cell columns.now) group))) groups.now) }
{
    let mut rows = Items::new(alloc);
    for group in groups {
        rows.push(group_row(alloc, made, keys, aggs, columns, group.as_slice())?)?;
    }
    Ok(rows)
}

// ---- columns

fn key_columns(alloc: Global, keys: &[ColId]) -> Result<Vec<(ColId, Kind)>, NoMemory>
    ensures { IfOk result (λ columns. columns.items ≡ map spec.numbered keys.now) }
{
    let mut columns = Vec::with_capacity(alloc, keys.len())?;
    for key in keys {
        columns.push((*key, Kind::Int))?;
    }
    Ok(columns)
}

fn aggregate_columns(alloc: Global, aggs: &[Agg]) -> Result<Vec<(ColId, Kind)>, NoMemory>
    ensures { IfOk result (λ columns. columns.items ≡ map (λ agg. spec.numbered agg.out) aggs.now) }
{
    let mut columns = Vec::with_capacity(alloc, aggs.len())?;
    for agg in aggs {
        columns.push((agg.out, Kind::Int))?;
    }
    Ok(columns)
}

fn group_columns(
    alloc: Global,
    keys: &[ColId],
    aggs: &[Agg],
) -> Result<Vec<(ColId, Kind)>, NoMemory>
    ensures { IfOk result (λ columns. columns.items ≡ map spec.numbered keys.now ++ map (λ agg. spec.numbered agg.out) aggs.now) }
{
    let mut columns = key_columns(alloc, keys)?;
    let mut more = aggregate_columns(alloc, aggs)?;
    columns.append(&mut more)?;
    Ok(columns)
}

/// A row for each group: the keys and the aggregates.
pub fn grouped(
    alloc: Global,
    keys: &[ColId],
    aggs: &[Agg],
    child: &Relation,
) -> Result<Relation, NoMemory>
    ensures { IfOk result (λ found. spec.environments found ≡ operators.grouped keys.now aggs.now (spec.environments child.now)) }
{
    let made = group_columns(alloc, keys, aggs)?;
    let columns = schema_over(alloc, made.as_slice())?;
    let groups = groups(alloc, keys, &child.columns, child.rows.as_slice())?;
    let rows = group_rows(
        alloc,
        &columns,
        keys,
        aggs,
        &child.columns,
        groups.as_slice(),
    )?;
    Ok(Relation { columns, rows })
}
