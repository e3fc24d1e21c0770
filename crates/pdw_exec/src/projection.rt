//! Rows of other columns.

ghost use Rattle.std.specs.Prelude.{◌≡◌, IfOk, map, true};
ghost use Rattle.pdw_algebra.specs.Schema.{rising};
ghost use Rattle.pdw_algebra.specs.Shape as shape;
ghost use Rattle.pdw_base.specs.Schema.{cell, row_over};
ghost use Rattle.pdw_base.specs.Value.{owned};
ghost use Rattle.pdw_exec.specs.Relation.{Fits, Gives, environments};
ghost use Rattle.pdw_exec.specs.Shapes.{have_kinds};
ghost use Rattle.pdw_expr.specs.Rows as operators;

use crate::relation::{Held, Relation};
use pdw_algebra::{kind_at, scalar_kind, schema_over};
use pdw_base::{Bag, ColId, Kind, NoMemory, Row, Schema, ValueRef};
use pdw_expr::{Scalar, eval_scalar};
use pdw_keys::value_at;
use std::alloc::Global;

// ---- columns

// The kind of an item, INT where it has none.
fn kind_of(columns: &[(ColId, Kind)], item: &(ColId, Option<Scalar>)) -> Kind
    ensures { result ≡ shape.kind_or_int (shape.item_kind columns.now item.now) }
{
    let kind = match &item.1 {
        Some(e) => scalar_kind(columns, e),
        None => kind_at(columns, item.0),
    };
    kind.unwrap_or(Kind::Int)
}

fn item_columns(
    alloc: Global,
    items: &[(ColId, Option<Scalar>)],
    columns: &[(ColId, Kind)],
) -> Result<Schema, NoMemory>
    ensures { IfOk result (λ made. made ≡ rising (map (shape.item_column columns.now) items.now)) }
{
    let mut made = Vec::with_capacity(alloc, items.len())?;
    for item in items {
        made.push((item.0, kind_of(columns, item)))?;
    }
    schema_over(alloc, made.as_slice())
}

// ---- rows

// The value of an item: that of its expression, or of the column that it passes through.
fn item_value<'a>(own: &Schema, row: &'a Row, item: &'a (ColId, Option<Scalar>)) -> ValueRef<'a>
    ensures { owned result ≡ operators.item_value (cell own.now row.now) item.now.0 item.now.1 }
{
    match &item.1 {
        Some(e) => eval_scalar(e, own, row),
        None => value_at(row.values(), own.place(item.0)),
    }
}

// The value of a column; of several items with its number the first counts.
fn projected_cell<'a>(
    items: &'a [(ColId, Option<Scalar>)],
    own: &Schema,
    row: &'a Row,
    c: ColId,
) -> ValueRef<'a>
    ensures { owned result ≡ operators.projected items.now (cell own.now row.now) c }
{
    for item in items {
        if item.0.0 == c.0 {
            return item_value(own, row, item);
        }
    }
    ValueRef::Null
}

fn projected_row(
    alloc: Global,
    columns: &Schema,
    items: &[(ColId, Option<Scalar>)],
    own: &Schema,
    row: &Row,
) -> Result<Row, NoMemory>
    ensures { IfOk result (λ projected. projected ≡ row_over columns.now (operators.projected items.now (cell own.now row.now))) }
{
    let mut values = Vec::with_capacity(alloc, columns.cols().len())?;
    for column in columns.cols() {
        values.push(projected_cell(items, own, row, column.0).to_value(alloc)?)?;
    }
    Ok(Row::from_values(values))
}

fn projected_rows(
    alloc: Global,
    columns: &Schema,
    items: &[(ColId, Option<Scalar>)],
    own: &Schema,
    rows: &[Row],
) -> Result<Bag, NoMemory>
    ensures { IfOk result (λ projected. projected ≡ map (λ row. row_over columns.now (operators.projected items.now (cell own.now row))) rows.now) }
{
    let mut projected = Bag::new(alloc);
    for row in rows {
        projected.push(projected_row(alloc, columns, items, own, row)?)?;
    }
    Ok(projected)
}

/// For each row one row of the items' columns.
pub fn projected<'a>(
    alloc: Global,
    items: &[(ColId, Option<Scalar>)],
    child: &Relation<'a>,
) -> Result<Relation<'a>, NoMemory>
    ensures { IfOk result (Gives (rising (map (shape.item_column child.now.columns) items.now)) (map (operators.projected items.now) (environments child.now)) ((Fits child.now) × (have_kinds child.now.columns items.now ≡ true))) }
{
    let own = &child.columns;
    let columns = item_columns(alloc, items, own.cols())?;
    let bag = projected_rows(alloc, &columns, items, own, child.rows.bag().rows())?;
    Ok(Relation {
        columns,
        rows: Held::Made(bag),
    })
}
