//! The text of PROFILE.

ghost use Rattle.std.specs.List.{flat_map};
ghost use Rattle.std.specs.Prelude.{◌≡◌, ◌++◌, OnOk};
ghost use Rattle.pdw_show.specs.Profile as spec;

use crate::plan::push_cost;
use crate::rows::push_table;
use crate::words::{push_node, push_number, word_text};
use pdw_answer::{Profile, StepCount, word_of_move};
use pdw_base::{NoMemory, Node};

// How many rows a step moved, a row for each node that it went to.
fn moved(sent: &[(Node, Node, u64)]) -> u128
    ensures { result ≡ spec.moved sent.now }
{
    let mut rows: u128 = 0;
    for pair in sent {
        rows += u128::from(pair.2);
    }
    rows
}

// What of a step is said of all nodes together.
fn push_total(text: &mut Vec<u8>, number: usize, step: &StepCount) -> Result<(), NoMemory>
    ensures { OnOk result (text.new.items ≡ text.old.items ++ spec.total_line number step.now) }
{
    push_number(text, b"STEP ", number as u128)?;
    text.push(b' ')?;
    text.extend_from_slice(word_text(word_of_move(step.mv)))?;
    push_number(text, b" ROWS ", moved(step.sent.as_slice()))?;
    push_number(text, b" EVENTS ", u128::from(step.events))?;
    text.push(b'\n')?;
    Ok(())
}

// The line of what a node sent to a node, where it sent a row.
fn push_sent(text: &mut Vec<u8>, sent: &(Node, Node, u64)) -> Result<(), NoMemory>
    ensures { OnOk result (text.new.items ≡ text.old.items ++ spec.sent_line sent.now) }
{
    if sent.2 == 0 {
        return Ok(());
    }
    text.extend_from_slice(b"SENT")?;
    push_node(text, sent.0)?;
    push_node(text, sent.1)?;
    push_number(text, b" ", u128::from(sent.2))?;
    text.push(b'\n')?;
    Ok(())
}

fn push_pairs(text: &mut Vec<u8>, sent: &[(Node, Node, u64)]) -> Result<(), NoMemory>
    ensures { OnOk result (text.new.items ≡ text.old.items ++ flat_map spec.sent_line sent.now) }
{
    for pair in sent {
        push_sent(text, pair)?;
    }
    Ok(())
}

fn push_step(text: &mut Vec<u8>, number: usize, step: &StepCount) -> Result<(), NoMemory>
    ensures { OnOk result (text.new.items ≡ text.old.items ++ spec.step_text number step.now) }
{
    push_total(text, number, step)?;
    push_pairs(text, step.sent.as_slice())
}

// Steps are counted from 1.
fn push_steps(text: &mut Vec<u8>, steps: &[StepCount]) -> Result<(), NoMemory>
    ensures { OnOk result (text.new.items ≡ text.old.items ++ spec.steps_text 1 steps.now) }
{
    for place in 0..steps.len() {
        push_step(text, place + 1, &steps[place])?;
    }
    Ok(())
}

/// Adds the cost of a plan, its steps, and the text of its rows.
pub fn push_profile(text: &mut Vec<u8>, profile: &Profile) -> Result<(), NoMemory>
    ensures { OnOk result (text.new.items ≡ text.old.items ++ spec.profile_text profile.now) }
{
    push_cost(text, profile.cost)?;
    push_steps(text, profile.steps.as_slice())?;
    push_table(text, &profile.table)
}
