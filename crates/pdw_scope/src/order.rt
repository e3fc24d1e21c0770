//! ORDER BY: SQL-92, 13.1.

ghost use Rattle.std.specs.Prelude.{◌≡◌, length, map, position};
ghost use Rattle.std.specs.List.{list_any};
ghost use Rattle.pdw_walk.specs.Queries as spec;
ghost use Rattle.pdw_walk.specs.Walk.{Walks, beginning, each};

use crate::columns::kept_place;
use pdw_base::Str;
use pdw_form::JudgedSelect;
use pdw_resolve::text_from;
use pdw_syntax::{OrderKey, OrderName};
use pdw_walk::{Column, JudgeFault, Walked};
use sqlite_items::Items as ListOf;
use std::alloc::Global;
use std::mem::drop;

// Where the first output column of this name stands.
fn first_place(outputs: &[Column], name: &Str) -> Option<usize>
    ensures { result ≡ position (spec.has_name name.now) outputs.now }
{
    outputs.iter().position(|output| *name == output.name)
}

fn has_name(outputs: &[Column], name: &Str) -> bool
    ensures { result ≡ list_any (spec.has_name name.now) outputs.now }
{
    outputs.iter().any(|output| *name == output.name)
}

// The place of the one output column of this name.
#[tactic(auto, using(crate::proofs::OutputPlaces::found))]
fn named_place(alloc: Global, outputs: &[Column], name: &Str) -> Result<u32, JudgeFault>
    ensures { Walks (spec.named_place name.now (spec.places name.now (map spec.name_of outputs.now)) beginning) result beginning }
{
    let Some(place) = first_place(outputs, name) else {
        return Err(JudgeFault::UnknownColumn(name.try_copy(alloc)?));
    };
    if has_name(&outputs[place + 1..], name) {
        return Err(JudgeFault::Ambiguous(name.try_copy(alloc)?));
    }
    kept_place(place)
}

// The place of the output column at a position from 1.
fn place_at(alloc: Global, position: i64, count: usize) -> Result<u32, JudgeFault>
    ensures { Walks (spec.place_at position count beginning) result beginning }
{
    match usize::try_from(position) {
        Ok(place) if place >= 1 && place <= count => kept_place(place - 1),
        _ => {
            let written = format!(in alloc; "{position}")?;
            Err(JudgeFault::UnknownColumn(text_from(alloc, written.as_str())?))
        }
    }
}

fn order_place(alloc: Global, outputs: &[Column], name: &OrderName) -> Result<u32, JudgeFault>
    ensures { Walks (spec.order_place (map spec.name_of outputs.now) name.now beginning) result beginning }
{
    match name {
        OrderName::Name(name) => named_place(alloc, outputs, name),
        OrderName::Position(position) => place_at(alloc, *position, outputs.len()),
    }
}

#[tactic(auto, unfolding(pdw_walk::specs::Queries::order_key))]
fn order_key(alloc: Global, outputs: &[Column], key: &OrderKey) -> Result<(u32, bool), JudgeFault>
    ensures { Walks (spec.order_key (map spec.name_of outputs.now) key.now beginning) result beginning }
{
    let place = order_place(alloc, outputs, &key.name)?;
    Ok((place, key.descending))
}

#[tactic(auto, using(pdw_resolve::proofs::Turns::turns))]
fn order_keys(
    alloc: Global,
    outputs: &[Column],
    keys: &[OrderKey],
) -> Result<ListOf<(u32, bool)>, JudgeFault>
    ensures { Walks (each (spec.order_key (map spec.name_of outputs.now)) keys.now beginning) result beginning }
{
    let mut found = ListOf::new(alloc);
    for key in keys {
        found.push(order_key(alloc, outputs, key)?)?;
    }
    Ok(found)
}

/// A query with the order of its rows.
pub fn ordered(
    alloc: Global,
    walked: Walked,
    order: &[OrderKey],
) -> Result<JudgedSelect, JudgeFault>
    ensures { Walks (spec.ordered order.now walked beginning) result beginning }
{
    match order_keys(alloc, walked.outputs.as_slice(), order) {
        Ok(order) => Ok(JudgedSelect {
            query: walked.query,
            order,
        }),
        Err(fault) => {
            drop(walked);
            Err(fault)
        }
    }
}
