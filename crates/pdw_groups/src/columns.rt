//! Which columns of groups are interesting, and the schema of partial rows.

ghost use Rattle.std.specs.Prelude.{◌≡◌, ◌==◌, ◌++◌, map, filter, IfOk, OnOk};
ghost use Rattle.std.specs.List.{flat_map, list_any};
ghost use Rattle.pdw_catalog.specs.Catalog.{table_named};
ghost use Rattle.pdw_groups.specs.Columns as spec;

use pdw_algebra::Tree;
use pdw_base::{ColId, Kind, NoMemory, Str};
use pdw_catalog::{Catalog, Placing};
use pdw_expr::{Cmp, Cond, Scalar};
use sqlite_items::Items;
use std::alloc::Global;

// ---- the placing of a scanned table

// A column, or another of a smaller number.
fn lesser(least: Option<ColId>, c: ColId) -> Option<ColId>
    ensures { result ≡ spec.lesser least c }
{
    match least {
        Some(least) if least.0 <= c.0 => Some(least),
        _ => Some(c),
    }
}

// Of the columns that are read at a place of the table, the one of the least number.
fn least_at(place: u32, cols: &[(ColId, u32)]) -> Option<ColId>
    ensures { result ≡ spec.least_at place cols.now }
{
    let mut least = None;
    for col in cols {
        if col.1 == place {
            least = lesser(least, col.0);
        }
    }
    least
}

fn hash_by(placing: Placing, cols: &[(ColId, u32)]) -> Option<ColId>
    ensures { result ≡ spec.hash_by placing cols.now }
{
    match placing {
        Placing::Hash(place) => least_at(place, cols),
        Placing::Replicate => None,
    }
}

/// The used column by whose hash the rows of a table are placed.
pub fn hash_in(catalog: &Catalog, table: &Str, cols: &[(ColId, u32)]) -> Option<ColId>
    ensures { result ≡ spec.hash_in (table_named table.now catalog.now) cols.now }
{
    match catalog.table(table) {
        Some(table) => hash_by(table.placing, cols),
        None => None,
    }
}

fn is_replicate(placing: Placing) -> bool
    ensures { result ≡ spec.is_replicate placing }
{
    matches!(placing, Placing::Replicate)
}

/// Whether the rows of a table stand at each node.
pub fn is_replicated(catalog: &Catalog, table: &Str) -> bool
    ensures { result ≡ spec.replicated_in (table_named table.now catalog.now) }
{
    match catalog.table(table) {
        Some(table) => is_replicate(table.placing),
        None => false,
    }
}

// ---- interesting columns

fn column_alone(e: &Scalar) -> Option<ColId>
    ensures { result ≡ spec.column_alone e.now }
{
    match e {
        Scalar::Col(c) => Some(*c),
        _ => None,
    }
}

// Adds the two columns of a conjunct that compares two columns by `=`.
fn add_equality(useful: &mut Vec<ColId>, conjunct: &Cond) -> Result<(), NoMemory>
    ensures { OnOk result (useful.new.items ≡ useful.old.items ++ spec.equality_columns conjunct.now) }
{
    if let Cond::Compare(Cmp::Eq, a, b) = conjunct {
        if let (Some(a), Some(b)) = (column_alone(a), column_alone(b)) {
            useful.push(a)?;
            useful.push(b)?;
        }
    }
    Ok(())
}

fn add_equalities(useful: &mut Vec<ColId>, conds: &[Cond]) -> Result<(), NoMemory>
    ensures { OnOk result (useful.new.items ≡ useful.old.items ++ spec.equated conds.now) }
{
    for conjunct in conds {
        add_equality(useful, conjunct)?;
    }
    Ok(())
}

fn add_keys(useful: &mut Vec<ColId>, keys: &[ColId]) -> Result<(), NoMemory>
    ensures { OnOk result (useful.new.items ≡ useful.old.items ++ keys.now) }
{
    for key in keys {
        useful.push(*key)?;
    }
    Ok(())
}

fn add_hash(useful: &mut Vec<ColId>, hash: Option<ColId>) -> Result<(), NoMemory>
    ensures { OnOk result (useful.new.items ≡ useful.old.items ++ spec.as_list hash) }
{
    if let Some(c) = hash {
        useful.push(c)?;
    }
    Ok(())
}

#[cycle(useful)]
fn add_leaves(useful: &mut Vec<ColId>, leaves: &[Tree], catalog: &Catalog) -> Result<(), NoMemory>
    ensures { OnOk result (useful.new.items ≡ useful.old.items ++ flat_map (spec.useful_columns catalog.now) leaves.now) }
{
    for leaf in leaves {
        add_useful(useful, leaf, catalog)?;
    }
    Ok(())
}

// Adds the columns by which rows of a tree may usefully be placed.
#[cycle(useful)]
fn add_useful(useful: &mut Vec<ColId>, tree: &Tree, catalog: &Catalog) -> Result<(), NoMemory>
    ensures { OnOk result (useful.new.items ≡ useful.old.items ++ spec.useful_columns catalog.now tree.now) }
{
    match tree {
        Tree::Scan { table, cols, .. } => {
            add_hash(useful, hash_in(catalog, table, cols.as_slice()))
        }
        Tree::Filter { conds, child } => {
            add_useful(useful, child.get(), catalog)?;
            add_equalities(useful, conds.as_slice())
        }
        Tree::Project { child, .. } => add_useful(useful, child.get(), catalog),
        Tree::Block { leaves, conds } => {
            add_leaves(useful, leaves.as_slice(), catalog)?;
            add_equalities(useful, conds.as_slice())
        }
        Tree::Join {
            conds,
            left,
            right,
            ..
        } => {
            add_useful(useful, left.get(), catalog)?;
            add_useful(useful, right.get(), catalog)?;
            add_equalities(useful, conds.as_slice())
        }
        Tree::GroupBy { keys, child, .. } => {
            add_useful(useful, child.get(), catalog)?;
            add_keys(useful, keys.as_slice())
        }
    }
}

/// The columns by which rows of a statement's tree may usefully be placed: those of a column equality, grouping keys, and
/// the columns by whose hash tables are placed.
pub fn useful_columns(alloc: Global, tree: &Tree, catalog: &Catalog) -> Result<Vec<ColId>, NoMemory>
    ensures { IfOk result (λ useful. useful.items ≡ spec.useful_columns catalog.now tree.now) }
{
    let mut useful = Vec::new(alloc);
    add_useful(&mut useful, tree, catalog)?;
    Ok(useful)
}

fn is_useful(useful: &[ColId], c: ColId) -> bool
    ensures { result ≡ list_any (λ u. u.0 == c.0) useful.now }
{
    useful.iter().any(|u| u.0 == c.0)
}

fn useful_among(
    alloc: Global,
    useful: &[ColId],
    schema: &[(ColId, Kind)],
) -> Result<Items<ColId>, NoMemory>
    ensures { IfOk result (λ some. some ≡ filter (λ c. list_any (λ u. u.0 == c.0) useful.now) (spec.numbers_of schema.now)) }
{
    let mut some = Items::new(alloc);
    for column in schema {
        if is_useful(useful, column.0) {
            some.push(column.0)?;
        }
    }
    Ok(some)
}

/// The interesting columns of a schema: those that are useful, or else its first.
pub fn interesting_in(
    alloc: Global,
    useful: &[ColId],
    schema: &[(ColId, Kind)],
) -> Result<Items<ColId>, NoMemory>
    ensures { IfOk result (λ some. some ≡ spec.interesting_in useful.now schema.now) }
{
    let mut some = useful_among(alloc, useful, schema)?;
    if some.is_empty() && !schema.is_empty() {
        some.push(schema[0].0)?;
    }
    Ok(some)
}
