//! The whole run: the words, the script, its statements.

ghost use Rattle.std.specs.Prelude.{◌≡◌, ◌≤◌, ◌⊎◌, true, length};
ghost use Rattle.std.specs.List.{list_all};
ghost use Rattle.pdw_syntax.specs.Written.{statement_written};
ghost use Rattle.pdw_outside.specs.Faults.{Rose};
ghost use Rattle.pdw_outside.specs.Sink.{Adds};
ghost use Rattle.pdw_run.specs.Output.{CountsWriting, IsRefusedOnly, Lawful, MeetsNoFault, Outputs, SameReading, ScriptWrites, Writes};
ghost use Rattle.pdw_engine.specs.Plain.{start};
ghost use Rattle.pdw_run.specs.Run.{EndsBy};
ghost use Rattle.pdw_run.specs.Trace.{Trace};
ghost use Rattle.pdw_run.specs.Words.{HaveNoForm};
ghost use Rattle.pdw_run.specs.declared.status.Status.TheVariants as status;

use crate::reading::read_script;
use crate::refusal::long_script;
use crate::status::Status;
use crate::step::{refuse, run_statements};
use crate::words;
use pdw_base::{MOST_SCRIPT_BYTES, NodeCount, Str};
use pdw_engine::Session;
use pdw_outside::{Files, ReadStop, Sink, read_whole};
use pdw_syntax::Statement;
use std::alloc::Global;

// Executes statements over a session without tables.
fn run_anew<F: Files, S: Sink>(
    alloc: Global,
    nodes: NodeCount,
    statements: &[Statement],
    files: &mut F,
    out: &mut S,
) -> Status
    requires { list_all statement_written statements.now ≡ true }
    ensures lawful { EndsBy result (F.faults files.old) (F.faults files.new) (Writes (F.bytes files.old) 1 (start nodes) statements.now) (S.written out.old) (S.written out.new) }
    ensures reading { SameReading result (F.faults files.old) (F.faults files.new) }
    ensures writing { CountsWriting result (S.faults out.old) (S.faults out.new) }
    ensures bytes { F.bytes files.new ≡ F.bytes files.old }
{
    match Session::new(alloc, nodes) {
        Ok(mut session) => run_statements(alloc, &mut session, statements, files, out),
        Err(_) => Status::Memory,
    }
}

// Runs the bytes of a script.
fn run_bytes<F: Files, S: Sink>(
    alloc: Global,
    nodes: NodeCount,
    script: &[u8],
    files: &mut F,
    out: &mut S,
) -> Status
    requires { length script.now ≤ MOST_SCRIPT_BYTES }
    ensures lawful { EndsBy result (F.faults files.old) (F.faults files.new) (ScriptWrites (F.bytes files.old) nodes script.now) (S.written out.old) (S.written out.new) }
    ensures reading { SameReading result (F.faults files.old) (F.faults files.new) }
    ensures writing { CountsWriting result (S.faults out.old) (S.faults out.new) }
    ensures bytes { F.bytes files.new ≡ F.bytes files.old }
{
    match read_script(alloc, script) {
        Ok(statements) => run_anew(alloc, nodes, statements.as_slice(), files, out),
        Err(error) => match error.line(alloc) {
            Ok(line) => refuse(out, line.as_str()),
            Err(_) => Status::Memory,
        },
    }
}

// Reads a script whole and runs it.
fn run_script<F: Files, S: Sink>(
    alloc: Global,
    nodes: NodeCount,
    name: &Str,
    files: &mut F,
    out: &mut S,
) -> Status
    ensures lawful { EndsBy result (F.faults files.old) (F.faults files.new) (Outputs (F.bytes files.old) nodes name.now) (S.written out.old) (S.written out.new) }
    ensures reading { SameReading result (F.faults files.old) (F.faults files.new) }
    ensures writing { CountsWriting result (S.faults out.old) (S.faults out.new) }
    ensures bytes { F.bytes files.new ≡ F.bytes files.old }
{
    match read_whole(alloc, files, name.text(), MOST_SCRIPT_BYTES) {
        Ok(script) => run_bytes(alloc, nodes, script.as_slice(), files, out),
        Err(ReadStop::TooLong) => match long_script(alloc) {
            Ok(line) => refuse(out, line.as_str()),
            Err(_) => Status::Memory,
        },
        Err(ReadStop::Failed) => Status::ReadFault,
        Err(ReadStop::Memory) => Status::Memory,
    }
}

/// Runs the script that the words name, and says how it ended.
///
/// The bytes written are a lawful output of the script and the files, as the status tells: whole at Done, up to
/// the line of the first refusal at Refused, and the texts before the statement at which the run stopped otherwise.
pub fn run<F: Files, S: Sink>(alloc: Global, words: &[Str], files: &mut F, out: &mut S) -> Status
    ensures lawful { (trace : Trace) × Lawful (F.bytes files.old) (F.faults files.old) (F.faults files.new) words.now result trace × Adds (S.written out.old) (S.written out.new) trace.text }

    // Where no lawful output ends with a refusal, and neither a file at which one may stop nor the sink failed, every statement is executed, or memory is wanted.
    ensures completes { ¬ (HaveNoForm words.now) → MeetsNoFault (F.bytes files.old) (F.faults files.old) (F.faults files.new) words.now → ¬ (Rose (S.faults out.old) (S.faults out.new)) → (result ≡ status.Done) ⊎ (result ≡ status.Memory) }

    // Where no lawful output is finished, and neither a file at which one may stop nor the sink failed, the run is refused, or memory is wanted.
    ensures refuses { ¬ (HaveNoForm words.now) → IsRefusedOnly (F.bytes files.old) (F.faults files.old) (F.faults files.new) words.now → ¬ (Rose (S.faults out.old) (S.faults out.new)) → (result ≡ status.Refused) ⊎ (result ≡ status.Memory) }

    ensures reading { SameReading result (F.faults files.old) (F.faults files.new) }
    ensures writing { CountsWriting result (S.faults out.old) (S.faults out.new) }
    ensures bytes { F.bytes files.new ≡ F.bytes files.old }
{
    match words::parse(words) {
        Some(asked) => run_script(alloc, asked.nodes, asked.script, files, out),
        None => Status::BadWords,
    }
}
