//! The columns that a tree gives.

ghost use Rattle.std.specs.Prelude.{◌≡◌, ◌++◌, map, IfOk};
ghost use Rattle.std.specs.List.{flat_map};
ghost use Rattle.pdw_algebra.specs.Shape as spec;
ghost use Rattle.pdw_catalog.specs.Catalog.{table_named};

use crate::Tree;
use crate::types::{aggregate_kind, kind_at, scalar_kind};
use pdw_base::{ColId, Kind, NoMemory, Str};
use pdw_catalog::{Catalog, Column};
use pdw_expr::{Agg, JoinKind, Scalar};
use sqlite_items::at;
use std::alloc::Global;

fn kind_or_int(kind: Option<Kind>) -> Kind
    ensures { result ≡ spec.kind_or_int kind }
{
    kind.unwrap_or(Kind::Int)
}

fn both(
    mut left: Vec<(ColId, Kind)>,
    mut right: Vec<(ColId, Kind)>,
) -> Result<Vec<(ColId, Kind)>, NoMemory>
    ensures { IfOk result (λ all. all.items ≡ left.items ++ right.items) }
{
    left.append(&mut right)?;
    Ok(left)
}

// ---- scans

fn column_kind(columns: &[Column], place: u32) -> Option<Kind>
    ensures { result ≡ spec.column_kind columns.now place }
{
    match at(columns, place as usize) {
        Some(column) => Some(column.kind),
        None => None,
    }
}

fn scan_columns(
    alloc: Global,
    columns: &[Column],
    cols: &[(ColId, u32)],
) -> Result<Vec<(ColId, Kind)>, NoMemory>
    ensures { IfOk result (λ scanned. scanned.items ≡ map (spec.scan_column columns.now) cols.now) }
{
    let mut scanned = Vec::with_capacity(alloc, cols.len())?;
    for col in cols {
        scanned.push((col.0, kind_or_int(column_kind(columns, col.1))))?;
    }
    Ok(scanned)
}

fn table_columns(
    alloc: Global,
    table: &Str,
    cols: &[(ColId, u32)],
    catalog: &Catalog,
) -> Result<Vec<(ColId, Kind)>, NoMemory>
    ensures { IfOk result (λ scanned. scanned.items ≡ map (spec.scan_column (spec.columns_in (table_named table.now catalog.now))) cols.now) }
{
    match catalog.table(table) {
        Some(table) => scan_columns(alloc, table.columns.as_slice(), cols),
        None => scan_columns(alloc, &[], cols),
    }
}

// ---- projection

fn item_kind(columns: &[(ColId, Kind)], item: &(ColId, Option<Scalar>)) -> Option<Kind>
    ensures { result ≡ spec.item_kind columns.now item.now }
{
    match &item.1 {
        Some(e) => scalar_kind(columns, e),
        None => kind_at(columns, item.0),
    }
}

fn item_columns(
    alloc: Global,
    items: &[(ColId, Option<Scalar>)],
    columns: &[(ColId, Kind)],
) -> Result<Vec<(ColId, Kind)>, NoMemory>
    ensures { IfOk result (λ projected. projected.items ≡ map (spec.item_column columns.now) items.now) }
{
    let mut projected = Vec::with_capacity(alloc, items.len())?;
    for item in items {
        projected.push((item.0, kind_or_int(item_kind(columns, item))))?;
    }
    Ok(projected)
}

// ---- groups

fn key_columns(
    alloc: Global,
    keys: &[ColId],
    columns: &[(ColId, Kind)],
) -> Result<Vec<(ColId, Kind)>, NoMemory>
    ensures { IfOk result (λ grouped. grouped.items ≡ map (spec.key_column columns.now) keys.now) }
{
    let mut grouped = Vec::with_capacity(alloc, keys.len())?;
    for key in keys {
        grouped.push((*key, kind_or_int(kind_at(columns, *key))))?;
    }
    Ok(grouped)
}

fn aggregate_columns(
    alloc: Global,
    aggs: &[Agg],
    columns: &[(ColId, Kind)],
) -> Result<Vec<(ColId, Kind)>, NoMemory>
    ensures { IfOk result (λ grouped. grouped.items ≡ map (spec.aggregate_column columns.now) aggs.now) }
{
    let mut grouped = Vec::with_capacity(alloc, aggs.len())?;
    for agg in aggs {
        grouped.push((agg.out, kind_or_int(aggregate_kind(columns, agg))))?;
    }
    Ok(grouped)
}

fn group_columns(
    alloc: Global,
    keys: &[ColId],
    aggs: &[Agg],
    columns: &[(ColId, Kind)],
) -> Result<Vec<(ColId, Kind)>, NoMemory>
    ensures { IfOk result (λ grouped. grouped.items ≡ map (spec.key_column columns.now) keys.now ++ map (spec.aggregate_column columns.now) aggs.now) }
{
    let grouped = key_columns(alloc, keys, columns)?;
    both(grouped, aggregate_columns(alloc, aggs, columns)?)
}

// ---- any tree

#[cycle(columns)]
fn leaf_columns(
    alloc: Global,
    leaves: &[Tree],
    catalog: &Catalog,
) -> Result<Vec<(ColId, Kind)>, NoMemory>
    ensures { IfOk result (λ columns. columns.items ≡ flat_map (spec.columns_of catalog.now) leaves.now) }
{
    let mut columns = Vec::new(alloc);
    for leaf in leaves {
        let mut more = columns_of(alloc, leaf, catalog)?;
        columns.append(&mut more)?;
    }
    Ok(columns)
}

/// The columns that a tree gives, in the order of its parts; one may stand twice. What has no kind counts as INT.
#[cycle(columns)]
pub fn columns_of(
    alloc: Global,
    tree: &Tree,
    catalog: &Catalog,
) -> Result<Vec<(ColId, Kind)>, NoMemory>
    ensures { IfOk result (λ columns. columns.items ≡ spec.columns_of catalog.now tree.now) }
{
    match tree {
        Tree::Scan { table, cols, .. } => table_columns(alloc, table, cols.as_slice(), catalog),
        Tree::Filter { child, .. } => columns_of(alloc, child.get(), catalog),
        Tree::Project { items, child } => {
            let columns = columns_of(alloc, child.get(), catalog)?;
            item_columns(alloc, items.as_slice(), columns.as_slice())
        }
        Tree::Block { leaves, .. } => leaf_columns(alloc, leaves.as_slice(), catalog),
        Tree::Join {
            kind: JoinKind::Semi | JoinKind::Anti,
            left,
            ..
        } => columns_of(alloc, left.get(), catalog),
        Tree::Join { left, right, .. } => {
            let columns = columns_of(alloc, left.get(), catalog)?;
            both(columns, columns_of(alloc, right.get(), catalog)?)
        }
        Tree::GroupBy { keys, aggs, child } => {
            let columns = columns_of(alloc, child.get(), catalog)?;
            group_columns(alloc, keys.as_slice(), aggs.as_slice(), columns.as_slice())
        }
    }
}
