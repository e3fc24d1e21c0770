//! What a statement prints that was executed.

ghost use Rattle.std.specs.Prelude.{◌≡◌, ◌++◌, IfOk, OnOk};
ghost use Rattle.pdw_show.specs.Answer as spec;

use crate::plan::push_plan;
use crate::profile::push_profile;
use crate::rows::push_table;
use crate::verdict::push_verdict;
use crate::words::push_number;
use pdw_answer::Answer;
use pdw_base::NoMemory;
use std::alloc::Global;

fn push_done(text: &mut Vec<u8>) -> Result<(), NoMemory>
    ensures { OnOk result (text.new.items ≡ text.old.items ++ spec.done_text) }
{
    text.extend_from_slice(b"OK\n")?;
    Ok(())
}

fn push_loaded(text: &mut Vec<u8>, records: u64) -> Result<(), NoMemory>
    ensures { OnOk result (text.new.items ≡ text.old.items ++ spec.loaded_text records) }
{
    push_number(text, b"LOADED ", u128::from(records))?;
    text.push(b'\n')?;
    Ok(())
}

// The bytes of a plan file as one line.
fn push_file(text: &mut Vec<u8>, bytes: &[u8]) -> Result<(), NoMemory>
    ensures { OnOk result (text.new.items ≡ text.old.items ++ spec.file_text bytes.now) }
{
    text.extend_from_slice(bytes)?;
    text.push(b'\n')?;
    Ok(())
}

fn push_answer(text: &mut Vec<u8>, a: &Answer) -> Result<(), NoMemory>
    ensures text { OnOk result (text.new.items ≡ text.old.items ++ spec.shown_answer a.now) }
    ensures found { OnOk result (spec.HasText a.now) }
{
    match a {
        Answer::Done => push_done(text),
        Answer::Loaded(records) => push_loaded(text, *records),
        Answer::Rows(table) => push_table(text, table),
        Answer::Plan(plan) => push_plan(text, plan),
        Answer::Json(bytes) => push_file(text, bytes.as_slice()),
        Answer::Profile(profile) => push_profile(text, profile.get()),
        Answer::Checked(verdict) => push_verdict(text, *verdict),
    }
}

/// What a statement prints that gave this answer. A verdict that is a want of memory has no text, and is answered as one.
pub fn show_answer(alloc: Global, a: &Answer) -> Result<Vec<u8>, NoMemory>
    ensures text { IfOk result (λ text. text.items ≡ spec.shown_answer a.now) }
    ensures found { OnOk result (spec.HasText a.now) }
{
    let mut text = Vec::new(alloc);
    push_answer(&mut text, a)?;
    Ok(text)
}
