//! The groups of a query.

ghost use Rattle.std.specs.Prelude.{◌≡◌, ◌∷◌, [], IfOk, map};
ghost use Rattle.std.specs.List.{filter};
ghost use Rattle.pdw_expr.specs.Parts as parts;
ghost use Rattle.pdw_semantics.specs.Environment.{group_of};
ghost use Rattle.pdw_semantics.specs.Queries as spec;

use crate::environment::looked_up;
use crate::scope::{Scope, copy_scope, copy_scopes};
use pdw_base::{NoMemory, Row};
use pdw_expr::{each_once, is_same_row};
use pdw_syntax::ColRef;
use sqlite_items::Items as ListOf;
use std::alloc::Global;
use std::slice;

// What a row is grouped by.
fn key_of(
    alloc: Global,
    references: &[ColRef],
    outers: &[Scope],
    row: &Scope,
) -> Result<Row, NoMemory>
    ensures { IfOk result (λ key. key ≡ spec.key_of references.now outers.now row.now) }
{
    let mut values = Vec::new(alloc);
    for reference in references {
        values.push(looked_up(alloc, reference, slice::from_ref(row), outers)?)?;
    }
    Ok(Row::from_values(values))
}

fn keys_of(
    alloc: Global,
    references: &[ColRef],
    outers: &[Scope],
    rows: &[Scope],
) -> Result<ListOf<Row>, NoMemory>
    ensures { IfOk result (λ keys. keys ≡ map (spec.key_of references.now outers.now) rows.now) }
{
    let mut keys = ListOf::new(alloc);
    for row in rows {
        keys.push(key_of(alloc, references, outers, row)?)?;
    }
    Ok(keys)
}

// The rows with this key, in their order.
fn part_of(
    alloc: Global,
    references: &[ColRef],
    outers: &[Scope],
    rows: &[Scope],
    key: &Row,
) -> Result<ListOf<Scope>, NoMemory>
    ensures { IfOk result (λ part. part ≡ filter (λ row. parts.same_row (spec.key_of references.now outers.now row) key.now) rows.now) }
{
    let mut part = ListOf::new(alloc);
    for row in rows {
        let own = key_of(alloc, references, outers, row)?;
        if is_same_row(&own, key) {
            part.push(copy_scope(alloc, row.as_slice())?)?;
        }
    }
    Ok(part)
}

// The rows in parts of equal keys, by rising keys.
fn parts_of(
    alloc: Global,
    references: &[ColRef],
    outers: &[Scope],
    rows: &[Scope],
) -> Result<ListOf<ListOf<Scope>>, NoMemory>
    ensures { IfOk result (λ found. found ≡ parts.parts (spec.key_of references.now outers.now) rows.now) }
{
    let keys = keys_of(alloc, references, outers, rows)?;
    let once = each_once(alloc, keys.as_slice())?;
    let mut found = ListOf::new(alloc);
    for key in once.as_slice() {
        found.push(part_of(alloc, references, outers, rows, key)?)?;
    }
    Ok(found)
}

// One group of all rows.
fn whole(alloc: Global, rows: &[Scope]) -> Result<ListOf<ListOf<Scope>>, NoMemory>
    ensures { IfOk result (λ found. found ≡ rows.now ∷ []) }
{
    let mut found = ListOf::new(alloc);
    found.push(copy_scopes(alloc, rows)?)?;
    Ok(found)
}

// A group of each row.
fn singles(alloc: Global, rows: &[Scope]) -> Result<ListOf<ListOf<Scope>>, NoMemory>
    ensures { IfOk result (λ found. found ≡ map (λ row. row ∷ []) rows.now) }
{
    let mut found = ListOf::new(alloc);
    for row in rows {
        found.push(copy_scopes(alloc, slice::from_ref(row))?)?;
    }
    Ok(found)
}

/// The rows of each group: SQL-92, 7.7. A query that is not grouped has a group of each row.
pub fn all_groups(
    alloc: Global,
    grouped: bool,
    references: &[ColRef],
    outers: &[Scope],
    rows: &[Scope],
) -> Result<ListOf<ListOf<Scope>>, NoMemory>
    ensures { IfOk result (λ found. map (λ part. group_of part outers.now) found ≡ spec.all_groups grouped references.now outers.now rows.now) }
{
    if !grouped {
        singles(alloc, rows)
    } else if references.is_empty() {
        whole(alloc, rows)
    } else {
        parts_of(alloc, references, outers, rows)
    }
}
