//! The order of rows: SQL-92, 13.1.

ghost use Rattle.std.specs.Prelude.{◌≡◌, IfOk};
ghost use Rattle.std.specs.List.Sorted.{IsPermutation};
ghost use Rattle.pdw_base.specs.Value.{owned};
ghost use Rattle.pdw_catalog.specs.Table as table;
ghost use Rattle.pdw_semantics.specs.Answer as spec;
ghost use Rattle.pdw_semantics.specs.Answer.{IsOrdered};

use pdw_base::{NoMemory, Row, ValueRef, order};
use sqlite_items::{Items, at};
use std::alloc::Global;
use std::cmp::Ordering;

// The value at a place, NULL where the row has none.
fn value_at(row: &Row, place: u32) -> ValueRef<'_>
    ensures { owned result ≡ table.value_at place row.now }
{
    match at(row.values(), place as usize) {
        Some(value) => value.as_ref(),
        None => ValueRef::Null,
    }
}

// By one key: NULL comes first ascending and last descending.
fn by_key(key: &(u32, bool), first: &Row, second: &Row) -> Ordering
    ensures { result ≡ spec.key_cmp key.now first.now second.now }
{
    if key.1 {
        order(value_at(second, key.0), value_at(first, key.0))
    } else {
        order(value_at(first, key.0), value_at(second, key.0))
    }
}

// By the first key, then by the next, and so on.
fn by_keys(keys: &[(u32, bool)], first: &Row, second: &Row) -> Ordering
    ensures { result ≡ spec.keys_cmp keys.now first.now second.now }
{
    for key in keys {
        let ordering = by_key(key, first, second);
        if ordering.is_ne() {
            return ordering;
        }
    }
    Ordering::Equal
}

/// The same rows in an order that the keys allow.
pub fn ordered(alloc: Global, keys: &[(u32, bool)], rows: Vec<Row>) -> Result<Items<Row>, NoMemory>
    ensures rearranged { IfOk result (λ sorted. IsPermutation rows.items sorted) }
    ensures ordered { IfOk result (λ sorted. IsOrdered keys.now sorted) }
{
    let mut sorted = rows;
    sorted.sort_by(|first, second| by_keys(keys, first, second))?;
    Ok(Items::from_vec(sorted))
}
