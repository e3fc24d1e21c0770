//! Plan files from their texts.

ghost use Rattle.std.specs.Prelude.{◌≡◌, ◌<◌, ◌≤◌, length, map, IfOk};
ghost use Rattle.serde_json.specs.View.{view};
ghost use Rattle.pdw_planjson.specs.File as spec;

use crate::bounds::bounds_in;
use crate::file::{JsonFault, Place, PlanFile};
use crate::keys::{has_four, list_at, text_at, whole_at};
use crate::nodes::plan_in;
use crate::numerals::number_in;
use pdw_base::NoMemory;
use serde_json::Value;
use std::alloc::Global;

/// The most nodes of a plan file.
const MOST_NODES: usize = 16384;

fn has_head(value: &Value) -> bool
    ensures { result ≡ spec.has_head (view value.now) }
{
    has_four(value)
        && match whole_at(value, "version") {
            Some(version) => version == 1,
            None => false,
        }
}

fn cost_at(value: &Value) -> Option<u128>
    ensures { result ≡ spec.cost_at (view value.now) }
{
    match text_at(value, "cost") {
        Some(text) => number_in(text),
        None => None,
    }
}

fn described_parts(
    alloc: Global,
    cost: u128,
    nodes: &[Value],
    bounds: &[Value],
) -> Result<Result<PlanFile, Place>, NoMemory>
    requires some { 0 < length nodes.now }
    requires few { length nodes.now ≤ 16384 }
    ensures { IfOk result (λ file. file ≡ spec.with_plan cost (map view bounds.now) (spec.plan_in (map view nodes.now))) }
{
    let plan = match plan_in(alloc, nodes)? {
        Ok(plan) => plan,
        Err(place) => return Ok(Err(place)),
    };
    match bounds_in(alloc, bounds) {
        Ok(Ok(bounds)) => Ok(Ok(PlanFile { plan, bounds, cost })),
        Ok(Err(place)) => Ok(Err(place)),
        Err(fault) => Err(fault),
    }
}

fn described(alloc: Global, value: &Value) -> Result<Result<PlanFile, Place>, NoMemory>
    ensures { IfOk result (λ file. file ≡ spec.described (view value.now)) }
{
    if !has_head(value) {
        return Ok(Err(Place::Top));
    }
    let Some(cost) = cost_at(value) else {
        return Ok(Err(Place::Top));
    };
    let Some(nodes) = list_at(value, "nodes") else {
        return Ok(Err(Place::Top));
    };
    let Some(bounds) = list_at(value, "bounds") else {
        return Ok(Err(Place::Top));
    };
    if nodes.is_empty() || nodes.len() > MOST_NODES {
        return Ok(Err(Place::Top));
    }
    described_parts(alloc, cost, nodes, bounds)
}

/// The plan file that the bytes hold. Of several places that break a rule the fault names the first: the file as a whole, then
/// its nodes, then its bounds. Of equal keys of an object the last counts.
pub fn from_text(alloc: Global, bytes: &[u8]) -> Result<PlanFile, JsonFault>
    ensures { spec.Answers bytes.now result }
{
    let value = match Value::from_slice(alloc, bytes) {
        Ok(value) => value,
        Err(fault) if fault.is_memory() => return Err(JsonFault::Memory),
        Err(_) => return Err(JsonFault::NotJson),
    };
    match described(alloc, &value) {
        Ok(Ok(file)) => Ok(file),
        Ok(Err(place)) => Err(JsonFault::Shape { place }),
        Err(NoMemory) => Err(JsonFault::Memory),
    }
}
