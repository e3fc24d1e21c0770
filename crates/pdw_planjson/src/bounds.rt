//! The bounds of a file.

ghost use Rattle.std.specs.Prelude.{◌≡◌, map, option_and_then, option_map, IfOk, Some};
ghost use Rattle.serde_json.specs.View.{view};
ghost use Rattle.pdw_planjson.specs.Bounds as spec;
ghost use Rattle.pdw_planjson.specs.Keys.{elements_of};
ghost use Rattle.pdw_planjson.specs.Stack.{kept};

use crate::file::Place;
use crate::keys::elements;
use crate::numerals::number_in;
use pdw_base::NoMemory;
use pdw_ways::Bounds;
use serde_json::Value;
use sqlite_items::Items;
use std::alloc::Global;

fn some_number(number: Option<u128>) -> Option<Option<u128>>
    ensures { result ≡ option_map Some number }
{
    match number {
        Some(number) => Some(Some(number)),
        None => None,
    }
}

#[tactic(auto, unfolding(crate::specs::Bounds::bound_in))]
fn bound_in(text: &str) -> Option<Option<u128>>
    ensures { result ≡ spec.bound_in text.now }
{
    match text {
        "none" => Some(None),
        _ => some_number(number_in(text)),
    }
}

fn bound_of(value: &Value) -> Option<Option<u128>>
    ensures { result ≡ spec.bound_of (view value.now) }
{
    match value.as_str() {
        Some(text) => bound_in(text),
        None => None,
    }
}

fn add_bound(value: &Value, list: &mut Items<Option<u128>>) -> Result<bool, NoMemory>
    ensures { IfOk result (λ fits. spec.with_bound (view value.now) list.old ≡ kept fits list.new) }
{
    match bound_of(value) {
        Some(bound) => {
            list.push(bound)?;
            Ok(true)
        }
        None => Ok(false),
    }
}

fn list_in(alloc: Global, values: &[Value]) -> Result<Option<Items<Option<u128>>>, NoMemory>
    ensures { IfOk result (λ list. list ≡ spec.list_in (map view values.now)) }
{
    let mut list = Items::new(alloc);
    for place in 0..values.len() {
        if !add_bound(&values[place], &mut list)? {
            return Ok(None);
        }
    }
    Ok(Some(list))
}

fn list_of(alloc: Global, value: &Value) -> Result<Option<Items<Option<u128>>>, NoMemory>
    ensures { IfOk result (λ list. list ≡ option_and_then spec.list_in (elements_of (view value.now))) }
{
    match elements(value) {
        Some(values) => list_in(alloc, values),
        None => Ok(None),
    }
}

fn add_list(
    alloc: Global,
    value: &Value,
    lists: &mut Items<Items<Option<u128>>>,
) -> Result<bool, NoMemory>
    ensures { IfOk result (λ fits. spec.with_list (view value.now) lists.old ≡ kept fits lists.new) }
{
    match list_of(alloc, value)? {
        Some(list) => {
            lists.push(list)?;
            Ok(true)
        }
        None => Ok(false),
    }
}

/// The bounds, or the first list that breaks a rule.
pub fn bounds_in(alloc: Global, values: &[Value]) -> Result<Result<Bounds, Place>, NoMemory>
    ensures { IfOk result (λ bounds. bounds ≡ spec.bounds_in (map view values.now)) }
{
    let mut lists = Items::new(alloc);
    for group in 0..values.len() {
        if !add_list(alloc, &values[group], &mut lists)? {
            return Ok(Err(Place::Bound(group as u64)));
        }
    }
    Ok(Ok(Bounds { lists }))
}
