//! The text of CHECK PLAN.

ghost use Rattle.std.specs.Prelude.{◌≡◌, ◌++◌, OnOk};
ghost use Rattle.pdw_show.specs.Verdict as spec;

use crate::words::{push_number, push_prop};
use pdw_answer::PlanVerdict;
use pdw_base::NoMemory;
use pdw_move::Prop;
use pdw_planjson::{JsonFault, Place};
use pdw_ways::CheckFault;

fn push_place(text: &mut Vec<u8>, place: Place) -> Result<(), NoMemory>
    ensures { OnOk result (text.new.items ≡ text.old.items ++ spec.place_text place) }
{
    match place {
        Place::Top => text.extend_from_slice(b"SHAPE TOP")?,
        Place::Node(number) => push_number(text, b"SHAPE NODE ", u128::from(number))?,
        Place::Bound(number) => push_number(text, b"SHAPE BOUND ", u128::from(number))?,
    }
    Ok(())
}

fn push_json_fault(text: &mut Vec<u8>, fault: JsonFault) -> Result<(), NoMemory>
    ensures text { OnOk result (text.new.items ≡ text.old.items ++ spec.json_fault_text fault) }
    ensures named { OnOk result (spec.IsNamed fault) }
{
    match fault {
        JsonFault::NotJson => text.extend_from_slice(b"NOTJSON")?,
        JsonFault::Shape { place } => push_place(text, place)?,
        JsonFault::Memory => return Err(NoMemory),
    }
    Ok(())
}

// A bound after its word; an unreachable one is none.
fn push_bound(text: &mut Vec<u8>, bound: Option<u128>) -> Result<(), NoMemory>
    ensures { OnOk result (text.new.items ≡ text.old.items ++ spec.bound_text bound) }
{
    match bound {
        Some(bound) => push_number(text, b" BOUND ", bound)?,
        None => text.extend_from_slice(b" BOUND NONE")?,
    }
    Ok(())
}

fn push_wrong_cost(text: &mut Vec<u8>, written: u128, computed: u128) -> Result<(), NoMemory>
    ensures { OnOk result (text.new.items ≡ text.old.items ++ spec.wrong_cost_text written computed) }
{
    push_number(text, b"WRONGCOST WRITTEN ", written)?;
    push_number(text, b" COMPUTED ", computed)
}

fn push_too_high(
    text: &mut Vec<u8>,
    group: u32,
    prop: Prop,
    bound: Option<u128>,
    limit: u128,
) -> Result<(), NoMemory>
    ensures { OnOk result (text.new.items ≡ text.old.items ++ spec.too_high_text group prop bound limit) }
{
    push_number(text, b"BOUNDTOOHIGH G", u128::from(group))?;
    text.push(b' ')?;
    push_prop(text, prop)?;
    push_bound(text, bound)?;
    push_number(text, b" LIMIT ", limit)
}

fn push_not_tight(text: &mut Vec<u8>, cost: u128, bound: Option<u128>) -> Result<(), NoMemory>
    ensures { OnOk result (text.new.items ≡ text.old.items ++ spec.not_tight_text cost bound) }
{
    push_number(text, b"NOTTIGHT COST ", cost)?;
    push_bound(text, bound)
}

fn push_check_fault(text: &mut Vec<u8>, fault: CheckFault) -> Result<(), NoMemory>
    ensures { OnOk result (text.new.items ≡ text.old.items ++ spec.check_fault_text fault) }
{
    match fault {
        CheckFault::PlanShape { node } => push_number(text, b"PLANSHAPE ", u128::from(node)),
        CheckFault::WrongCost { written, computed } => push_wrong_cost(text, written, computed),
        CheckFault::BoundShape { group } => push_number(text, b"BOUNDSHAPE ", u128::from(group)),
        CheckFault::BoundTooHigh {
            group,
            prop,
            bound,
            limit,
        } => push_too_high(text, group, prop, bound, limit),
        CheckFault::NotTight { cost, bound } => push_not_tight(text, cost, bound),
    }
}

// The verdict without the end of its line.
fn push_finding(text: &mut Vec<u8>, verdict: PlanVerdict) -> Result<(), NoMemory>
    ensures text { OnOk result (text.new.items ≡ text.old.items ++ spec.finding_text verdict) }
    ensures named { OnOk result (spec.IsFound verdict) }
{
    match verdict {
        PlanVerdict::Accepted(cost) => push_number(text, b"PLAN ACCEPTED COST ", cost),
        PlanVerdict::Json(fault) => {
            text.extend_from_slice(b"PLAN REFUSED ")?;
            push_json_fault(text, fault)
        }
        PlanVerdict::Check(fault) => {
            text.extend_from_slice(b"PLAN REFUSED ")?;
            push_check_fault(text, fault)
        }
    }
}

/// Adds the line of a verdict. A want of memory has none.
pub fn push_verdict(text: &mut Vec<u8>, verdict: PlanVerdict) -> Result<(), NoMemory>
    ensures text { OnOk result (text.new.items ≡ text.old.items ++ spec.verdict_line verdict) }
    ensures named { OnOk result (spec.IsFound verdict) }
{
    push_finding(text, verdict)?;
    text.push(b'\n')?;
    Ok(())
}
