//! The plan of a file's nodes.

ghost use Rattle.std.specs.Prelude.{◌≡◌, ◌<◌, ◌≤◌, length, map, reverse, IfOk, IfSome};
ghost use Rattle.serde_json.specs.View.{view};
ghost use Rattle.pdw_planjson.specs.File as file_spec;
ghost use Rattle.pdw_planjson.specs.Stack as spec;

use crate::file::Place;
use crate::line::line_in;
use crate::stack::{Entry, place, pop};
use pdw_base::NoMemory;
use pdw_ways::Plan;
use serde_json::Value;
use sqlite_items::Items;
use std::alloc::Global;

fn add(
    alloc: Global,
    number: u64,
    value: &Value,
    stack: &mut Items<Entry>,
) -> Result<bool, NoMemory>
    ensures { IfOk result (λ fits. spec.added number (view value.now) (reverse stack.old) ≡ spec.kept fits (reverse stack.new)) }
{
    match line_in(value) {
        Some(line) => place(alloc, number, line, stack),
        None => Ok(false),
    }
}

// The number of the first node that breaks a rule.
fn add_all(
    alloc: Global,
    values: &[Value],
    stack: &mut Items<Entry>,
) -> Result<Option<u64>, NoMemory>
    ensures runs { IfOk result (λ fault. spec.run spec.added 0 (map view values.now) (reverse stack.old) ≡ spec.ended fault (reverse stack.new)) }
    ensures within { IfOk result (λ fault. IfSome fault (λ number. number < length values.now)) }
{
    for number in 0..values.len() {
        if !add(alloc, number as u64, &values[number], stack)? {
            return Ok(Some(number as u64));
        }
    }
    Ok(None)
}

fn root_of(nodes: u32, mut stack: Items<Entry>) -> Result<Plan, Place>
    requires { 0 < nodes }
    ensures { result ≡ file_spec.root_of nodes (reverse stack) }
{
    match pop(&mut stack) {
        Some(root) if stack.is_empty() => Ok(root.plan.into_inner()),
        _ => Err(Place::Node(nodes - 1)),
    }
}

/// The plan, or the first node that breaks a rule.
pub fn plan_in(alloc: Global, values: &[Value]) -> Result<Result<Plan, Place>, NoMemory>
    requires some { 0 < length values.now }
    requires few { length values.now ≤ 16384 }
    ensures { IfOk result (λ plan. plan ≡ file_spec.plan_in (map view values.now)) }
{
    let mut stack = Items::new(alloc);
    match add_all(alloc, values, &mut stack)? {
        Some(number) => Ok(Err(Place::Node(number as u32))),
        None => Ok(root_of(values.len() as u32, stack)),
    }
}
