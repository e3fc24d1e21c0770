//! The rows of whole tables.

ghost use Rattle.std.specs.Prelude.{◌≡◌, IfOk, map, slice_index_or};
ghost use Rattle.std.specs.List.{flat_map};
ghost use Rattle.pdw_base.specs.Schema.{row_over};
ghost use Rattle.pdw_base.specs.declared.value.Value.TheVariants as sql;
ghost use Rattle.pdw_catalog.specs.Appliance.{whole_of};
ghost use Rattle.pdw_interpreter.specs.Relation as spec;
ghost use Rattle.pdw_expr.specs.Rows as operators;

use crate::cells::value_or_null;
use crate::relation::Relation;
use pdw_algebra::schema_over;
use pdw_base::{Bag, ColId, Kind, NoMemory, Row, Schema, Str, Value};
use pdw_catalog::Appliance;
use sqlite_items::{Items, at};
use std::alloc::Global;

// The value at a place of a row, NULL where the row is too short.
fn value_at(alloc: Global, row: &Row, place: u32) -> Result<Value, NoMemory>
    ensures { IfOk result (λ value. value ≡ slice_index_or row.now place sql.Null) }
{
    value_or_null(alloc, at(row.values(), place as usize))
}

// The value of a column.
fn scanned_cell(
    alloc: Global,
    cols: &[(ColId, u32)],
    row: &Row,
    c: ColId,
) -> Result<Value, NoMemory>
    ensures { IfOk result (λ value. value ≡ operators.scanned cols.now row.now c) }
{
    for col in cols {
        if col.0.0 == c.0 {
            return value_at(alloc, row, col.1);
        }
    }
    Ok(Value::Null)
}

fn scanned_row(
    alloc: Global,
    columns: &Schema,
    cols: &[(ColId, u32)],
    row: &Row,
) -> Result<Row, NoMemory>
    ensures { IfOk result (λ scanned. scanned ≡ row_over columns.now (operators.scanned cols.now row.now)) }
{
    let mut values = Vec::with_capacity(alloc, columns.cols().len())?;
    for column in columns.cols() {
        values.push(scanned_cell(alloc, cols, row, column.0)?)?;
    }
    Ok(Row::from_values(values))
}

fn scanned_rows(
    alloc: Global,
    columns: &Schema,
    cols: &[(ColId, u32)],
    rows: &[Row],
) -> Result<Items<Row>, NoMemory>
    ensures { IfOk result (λ scanned. scanned ≡ map (λ row. row_over columns.now (operators.scanned cols.now row)) rows.now) }
{
    let mut scanned = Items::new(alloc);
    for row in rows {
        scanned.push(scanned_row(alloc, columns, cols, row)?)?;
    }
    Ok(scanned)
}

// The rows of all parts of a table.
fn scanned_parts(
    alloc: Global,
    columns: &Schema,
    cols: &[(ColId, u32)],
    parts: &[Bag],
) -> Result<Items<Row>, NoMemory>
    ensures { IfOk result (λ scanned. scanned ≡ flat_map (map (λ row. row_over columns.now (operators.scanned cols.now row))) parts.now) }
{
    let mut scanned = Items::new(alloc);
    for part in parts {
        scanned.append(scanned_rows(alloc, columns, cols, part.rows())?)?;
    }
    Ok(scanned)
}

// The rows of a table, none where there is no such table.
fn table_rows(
    alloc: Global,
    columns: &Schema,
    cols: &[(ColId, u32)],
    table: &Str,
    appliance: &Appliance,
) -> Result<Items<Row>, NoMemory>
    ensures { IfOk result (λ scanned. scanned ≡ map (λ row. row_over columns.now (operators.scanned cols.now row)) (whole_of table.now appliance.now)) }
{
    match appliance.catalog().table(table) {
        Some(_) => scanned_parts(alloc, columns, cols, appliance.parts(table)),
        None => Ok(Items::new(alloc)),
    }
}

// The columns that are used.
fn scan_columns(alloc: Global, cols: &[(ColId, u32)]) -> Result<Vec<(ColId, Kind)>, NoMemory>
    ensures { IfOk result (λ columns. columns.items ≡ map (λ col. spec.numbered col.0) cols.now) }
{
    let mut columns = Vec::with_capacity(alloc, cols.len())?;
    for col in cols {
        columns.push((col.0, Kind::Int))?;
    }
    Ok(columns)
}

/// The rows of a whole table, with these of its columns.
pub fn scanned(
    alloc: Global,
    table: &Str,
    cols: &[(ColId, u32)],
    appliance: &Appliance,
) -> Result<Relation, NoMemory>
    ensures { IfOk result (λ found. spec.environments found ≡ map (operators.scanned cols.now) (whole_of table.now appliance.now)) }
{
    let used = scan_columns(alloc, cols)?;
    let columns = schema_over(alloc, used.as_slice())?;
    let rows = table_rows(alloc, &columns, cols, table, appliance)?;
    Ok(Relation { columns, rows })
}
