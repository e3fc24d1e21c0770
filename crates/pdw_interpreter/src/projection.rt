//! Rows of other columns.

ghost use Rattle.std.specs.Prelude.{◌≡◌, IfOk, map};
ghost use Rattle.pdw_base.specs.Schema.{cell, row_over};
ghost use Rattle.pdw_interpreter.specs.Relation as spec;
ghost use Rattle.pdw_expr.specs.Rows as operators;

use crate::cells::{column, computed};
use crate::relation::Relation;
use pdw_algebra::schema_over;
use pdw_base::{ColId, Kind, NoMemory, Row, Schema, Value};
use pdw_expr::Scalar;
use sqlite_items::Items;
use std::alloc::Global;

// The value of an item: that of its expression, or of the column that it passes through.
fn item_value(
    alloc: Global,
    own: &Schema,
    row: &Row,
    item: &(ColId, Option<Scalar>),
) -> Result<Value, NoMemory>
    ensures { IfOk result (λ value. value ≡ operators.item_value (cell own.now row.now) item.now.0 item.now.1) }
{
    match &item.1 {
        Some(e) => computed(alloc, e, own, row),
        None => column(alloc, item.0, own, row),
    }
}

// The value of a column; of several items with its number the first counts.
fn projected_cell(
    alloc: Global,
    items: &[(ColId, Option<Scalar>)],
    own: &Schema,
    row: &Row,
    c: ColId,
) -> Result<Value, NoMemory>
    ensures { IfOk result (λ value. value ≡ operators.projected items.now (cell own.now row.now) c) }
{
    for item in items {
        if item.0.0 == c.0 {
            return item_value(alloc, own, row, item);
        }
    }
    Ok(Value::Null)
}

fn projected_row(
    alloc: Global,
    columns: &Schema,
    items: &[(ColId, Option<Scalar>)],
    own: &Schema,
    row: &Row,
) -> Result<Row, NoMemory>
    ensures { IfOk result (λ projected. projected ≡ row_over columns.now (operators.projected items.now (cell own.now row.now))) }
{
    let mut values = Vec::with_capacity(alloc, columns.cols().len())?;
    for column in columns.cols() {
        values.push(projected_cell(alloc, items, own, row, column.0)?)?;
    }
    Ok(Row::from_values(values))
}

fn projected_rows(
    alloc: Global,
    columns: &Schema,
    items: &[(ColId, Option<Scalar>)],
    own: &Schema,
    rows: &[Row],
) -> Result<Items<Row>, NoMemory>
    ensures { IfOk result (λ projected. projected ≡ map (λ row. row_over columns.now (operators.projected items.now (cell own.now row))) rows.now) }
{
    let mut projected = Items::new(alloc);
    for row in rows {
        projected.push(projected_row(alloc, columns, items, own, row)?)?;
    }
    Ok(projected)
}

fn item_columns(
    alloc: Global,
    items: &[(ColId, Option<Scalar>)],
) -> Result<Vec<(ColId, Kind)>, NoMemory>
    ensures { IfOk result (λ columns. columns.items ≡ map (λ item. spec.numbered item.0) items.now) }
{
    let mut columns = Vec::with_capacity(alloc, items.len())?;
    for item in items {
        columns.push((item.0, Kind::Int))?;
    }
    Ok(columns)
}

/// For each row one row of these columns.
pub fn projected(
    alloc: Global,
    items: &[(ColId, Option<Scalar>)],
    child: &Relation,
) -> Result<Relation, NoMemory>
    ensures { IfOk result (λ found. spec.environments found ≡ map (operators.projected items.now) (spec.environments child.now)) }
{
    let made = item_columns(alloc, items)?;
    let columns = schema_over(alloc, made.as_slice())?;
    let rows = projected_rows(
        alloc,
        &columns,
        items,
        &child.columns,
        child.rows.as_slice(),
    )?;
    Ok(Relation { columns, rows })
}
