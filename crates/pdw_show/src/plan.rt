//! The lines of a plan.

ghost use Rattle.std.specs.List.{flat_map};
ghost use Rattle.std.specs.Prelude.{◌≡◌, ◌++◌, OnOk};
ghost use Rattle.pdw_show.specs.Plan as spec;

use crate::words::{push_number, push_prop, word_text};
use pdw_answer::{MoveFlow, PlanLine, PlanText};
use pdw_base::{NoMemory, Str};

/// Adds the line of a cost.
pub fn push_cost(text: &mut Vec<u8>, cost: u128) -> Result<(), NoMemory>
    ensures { OnOk result (text.new.items ≡ text.old.items ++ spec.cost_line cost) }
{
    push_number(text, b"COST ", cost)?;
    text.push(b'\n')?;
    Ok(())
}

// Two blanks for each node above.
fn push_indent(text: &mut Vec<u8>, depth: u32) -> Result<(), NoMemory>
    ensures { OnOk result (text.new.items ≡ text.old.items ++ spec.indent depth) }
{
    for _level in 0..depth {
        text.extend_from_slice(b"  ")?;
    }
    Ok(())
}

fn push_alias(text: &mut Vec<u8>, alias: &Option<Str>) -> Result<(), NoMemory>
    ensures { OnOk result (text.new.items ≡ text.old.items ++ spec.alias_text alias.now) }
{
    if let Some(name) = alias {
        text.push(b' ')?;
        text.extend_from_slice(name.bytes())?;
    }
    Ok(())
}

fn push_moved(text: &mut Vec<u8>, flow: MoveFlow) -> Result<(), NoMemory>
    ensures { OnOk result (text.new.items ≡ text.old.items ++ spec.moved_text flow) }
{
    push_number(text, b" ROWS ", u128::from(flow.rows))?;
    push_number(text, b" WIDTH ", u128::from(flow.width))?;
    push_number(text, b" COST ", flow.cost)
}

fn push_flow(text: &mut Vec<u8>, flow: Option<MoveFlow>) -> Result<(), NoMemory>
    ensures { OnOk result (text.new.items ≡ text.old.items ++ spec.flow_text flow) }
{
    match flow {
        Some(flow) => push_moved(text, flow),
        None => Ok(()),
    }
}

// What the node does, its group and, of a scan, the table's name.
fn push_subject(text: &mut Vec<u8>, line: &PlanLine) -> Result<(), NoMemory>
    ensures { OnOk result (text.new.items ≡ text.old.items ++ spec.subject_text line.now) }
{
    text.extend_from_slice(word_text(line.word))?;
    push_number(text, b" G", u128::from(line.group))?;
    push_alias(text, &line.alias)
}

// How its rows stand and, of a move, what it moves.
fn push_outcome(text: &mut Vec<u8>, line: &PlanLine) -> Result<(), NoMemory>
    ensures { OnOk result (text.new.items ≡ text.old.items ++ spec.outcome_text line.now) }
{
    text.push(b' ')?;
    push_prop(text, line.prop)?;
    push_flow(text, line.flow)
}

fn push_line(text: &mut Vec<u8>, line: &PlanLine) -> Result<(), NoMemory>
    ensures { OnOk result (text.new.items ≡ text.old.items ++ spec.line_text line.now) }
{
    push_indent(text, line.depth)?;
    push_subject(text, line)?;
    push_outcome(text, line)?;
    text.push(b'\n')?;
    Ok(())
}

fn push_lines(text: &mut Vec<u8>, lines: &[PlanLine]) -> Result<(), NoMemory>
    ensures { OnOk result (text.new.items ≡ text.old.items ++ flat_map spec.line_text lines.now) }
{
    for line in lines {
        push_line(text, line)?;
    }
    Ok(())
}

/// Adds the cost of a plan and its lines.
pub fn push_plan(text: &mut Vec<u8>, plan: &PlanText) -> Result<(), NoMemory>
    ensures { OnOk result (text.new.items ≡ text.old.items ++ spec.plan_text plan.now) }
{
    push_cost(text, plan.cost)?;
    push_lines(text, plan.lines.as_slice())
}
