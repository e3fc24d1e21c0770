//! The rows of a table at a node.

ghost use Rattle.std.specs.Prelude.{◌≡◌, ⊤, IfOk, map};
ghost use Rattle.std.specs.List.{AllByRecursion, filter};
ghost use Rattle.pdw_algebra.specs.Schema.{rising};
ghost use Rattle.pdw_algebra.specs.Shape.{columns_in, scan_column};
ghost use Rattle.pdw_algebra.specs.Shape as shape;
ghost use Rattle.pdw_catalog.specs.Appliance.{bag_at};
ghost use Rattle.pdw_catalog.specs.Catalog.{table_named};
ghost use Rattle.pdw_catalog.specs.Table.{FitsTable};
ghost use Rattle.pdw_exec.specs.Nodes.{table_rows};
ghost use Rattle.pdw_exec.specs.Relation.{Gives, meets_over};
ghost use Rattle.pdw_exec.specs.Scans as spec;
ghost use Rattle.pdw_exec.specs.Shapes.{base_columns};
ghost use Rattle.pdw_expr.specs.Rows as operators;
ghost use Rattle.pdw_keys.specs.Places.{key_at};

use crate::filters::meets;
use crate::relation::{Held, Relation};
use pdw_algebra::schema_over;
use pdw_base::{Bag, ColId, Kind, NoMemory, Node, Row, Schema, Str};
use pdw_catalog::{Appliance, Column};
use pdw_expr::Cond;
use pdw_keys::value_at;
use sqlite_items::at;
use std::alloc::Global;

// ---- columns

// The kind of the column at a place, INT where there is none.
fn kind_of(columns: &[Column], place: u32) -> Kind
    ensures { result ≡ shape.kind_or_int (shape.column_kind columns.now place) }
{
    match at(columns, place as usize) {
        Some(column) => column.kind,
        None => Kind::Int,
    }
}

fn used_columns(
    alloc: Global,
    columns: &[Column],
    cols: &[(ColId, u32)],
) -> Result<Schema, NoMemory>
    ensures { IfOk result (λ used. used ≡ rising (map (scan_column columns.now) cols.now)) }
{
    let mut used = Vec::with_capacity(alloc, cols.len())?;
    for col in cols {
        used.push((col.0, kind_of(columns, col.1)))?;
    }
    schema_over(alloc, used.as_slice())
}

fn table_columns(
    alloc: Global,
    table: &Str,
    cols: &[(ColId, u32)],
    app: &Appliance,
) -> Result<Schema, NoMemory>
    ensures { IfOk result (λ used. used ≡ base_columns app.now.tables table.now cols.now) }
{
    match app.catalog().table(table) {
        Some(found) => used_columns(alloc, found.columns.as_slice(), cols),
        None => used_columns(alloc, &[], cols),
    }
}

// Where a column stands in the table's rows, or None where it is not read.
fn place_in(cols: &[(ColId, u32)], c: ColId) -> Option<usize>
    ensures { result ≡ spec.place_in cols.now c }
{
    for col in cols {
        if col.0.0 == c.0 {
            return Some(col.1 as usize);
        }
    }
    None
}

fn places_in(
    alloc: Global,
    cols: &[(ColId, u32)],
    columns: &Schema,
) -> Result<Vec<Option<usize>>, NoMemory>
    ensures { IfOk result (λ places. places.items ≡ spec.places_in cols.now columns.now) }
{
    let mut places = Vec::with_capacity(alloc, columns.cols().len())?;
    for column in columns.cols() {
        places.push(place_in(cols, column.0))?;
    }
    Ok(places)
}

// ---- rows

// The values at some places.
fn scanned_row(alloc: Global, places: &[Option<usize>], row: &Row) -> Result<Row, NoMemory>
    ensures { IfOk result (λ scanned. scanned ≡ key_at places.now row.now) }
{
    let mut values = Vec::with_capacity(alloc, places.len())?;
    for place in places {
        values.push(value_at(row.values(), *place).to_value(alloc)?)?;
    }
    Ok(Row::from_values(values))
}

// The rows of which all conditions are True, with the values at some places.
fn scanned_rows(
    alloc: Global,
    columns: &Schema,
    places: &[Option<usize>],
    conds: &[Cond],
    rows: &[Row],
) -> Result<Bag, NoMemory>
    ensures { IfOk result (λ kept. kept ≡ filter (meets_over columns.now conds.now) (map (key_at places.now) rows.now)) }
{
    let mut kept = Bag::new(alloc);
    for row in rows {
        let scanned = scanned_row(alloc, places, row)?;
        if meets(conds, columns, &scanned) {
            kept.push(scanned)?;
        }
    }
    Ok(kept)
}

// The rows of a table at a compute node, none where there is no such table or node.
fn rows_at<'a>(app: &'a Appliance, table: &Str, node: u32) -> &'a [Row]
    ensures rows { result.now ≡ bag_at node table.now app.now }
    ensures fit { AllByRecursion (FitsTable (columns_in (table_named table.now app.now.tables))) result.now }
{
    let catalog = app.catalog();
    if node >= app.nodes().get() {
        return &[];
    }
    match catalog.table(table) {
        Some(_) => app.rows_at(table, node).rows(),
        None => &[],
    }
}

// The rows of a table at a node.
fn table_rows<'a>(app: &'a Appliance, table: &Str, node: Node) -> &'a [Row]
    ensures rows { result.now ≡ table_rows app.now node table.now }
    ensures fit { AllByRecursion (FitsTable (columns_in (table_named table.now app.now.tables))) result.now }
{
    match node {
        Node::Compute(node) => rows_at(app, table, node),
        Node::Control => &[],
    }
}

/// The node's rows of a table, with the columns that are used: those of which all conditions are True. A row that fails is
/// not kept in between.
pub fn scanned<'a>(
    alloc: Global,
    table: &Str,
    cols: &[(ColId, u32)],
    conds: &[Cond],
    app: &'a Appliance,
    node: Node,
) -> Result<Relation<'a>, NoMemory>
    ensures { IfOk result (Gives (base_columns app.now.tables table.now cols.now) (operators.filtered conds.now (map (operators.scanned cols.now) (table_rows app.now node table.now))) ⊤) }
{
    let columns = table_columns(alloc, table, cols, app)?;
    let places = places_in(alloc, cols, &columns)?;
    let rows = table_rows(app, table, node);
    let bag = scanned_rows(alloc, &columns, places.as_slice(), conds, rows)?;
    Ok(Relation {
        columns,
        rows: Held::Made(bag),
    })
}
