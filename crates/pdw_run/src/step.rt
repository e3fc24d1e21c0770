//! One statement with its text, and a script's statements one after the other.

ghost use Rattle.std.specs.Prelude.{◌≡◌, true, IfOk, OnErr};
ghost use Rattle.std.specs.List.{list_all};
ghost use Rattle.std.specs.String.{string_bytes};
ghost use Rattle.pdw_syntax.specs.Written.{statement_written};
ghost use Rattle.pdw_engine.specs.Plain.{plain_of};
ghost use Rattle.pdw_run.specs.Output.{CountsWriting, SameReading, Writes};
ghost use Rattle.pdw_run.specs.Run.{EndsBy, EndsRefused, Steps};
ghost use Rattle.pdw_run.specs.declared.status.Status.TheVariants as status;

use crate::perform::execute;
use crate::refusal::{long_file, refusal_line};
use crate::status::Status;
use crate::stop::Stop;
use pdw_base::NoMemory;
use pdw_engine::Session;
use pdw_outside::{Files, Sink, write_whole};
use pdw_syntax::Statement;
use std::alloc::Global;

/// Writes the line of a refusal.
pub fn refuse<S: Sink>(out: &mut S, line: &str) -> Status
    ensures { EndsRefused result (S.written out.old) (S.written out.new) (S.faults out.old) (S.faults out.new) line.now }
{
    match write_whole(out, line.as_bytes()) {
        Ok(()) => Status::Refused,
        Err(_) => Status::WriteFault,
    }
}

// Writes the line of a refusal, if there was the memory to make it.
fn refuse_by<S: Sink>(out: &mut S, line: Result<String, NoMemory>) -> Status
    ensures written { IfOk line (λ text. EndsRefused result (S.written out.old) (S.written out.new) (S.faults out.old) (S.faults out.new) (string_bytes text)) }
    ensures memory { OnErr line ((result ≡ status.Memory) × (S.written out.new ≡ S.written out.old) × (S.faults out.new ≡ S.faults out.old)) }
{
    match line {
        Ok(line) => refuse(out, line.as_str()),
        Err(_) => Status::Memory,
    }
}

// Executes statement k and writes its text, or the line of its refusal. Done says that the script goes on.
fn step<F: Files, S: Sink>(
    alloc: Global,
    session: &mut Session,
    k: usize,
    statement: &Statement,
    files: &mut F,
    out: &mut S,
) -> Status
    requires { statement_written statement.now ≡ true }
    ensures steps { Steps (F.bytes files.old) k (plain_of session.old) statement.now (plain_of session.new) (F.faults files.old) (F.faults files.new) (S.written out.old) (S.written out.new) result }
    ensures reading { SameReading result (F.faults files.old) (F.faults files.new) }
    ensures writing { CountsWriting result (S.faults out.old) (S.faults out.new) }
    ensures bytes { F.bytes files.new ≡ F.bytes files.old }
{
    match execute(alloc, session, statement, files) {
        Ok(text) => match write_whole(out, text.as_slice()) {
            Ok(()) => Status::Done,
            Err(_) => Status::WriteFault,
        },
        Err(Stop::Refused(refusal)) => refuse_by(out, refusal_line(alloc, k, refusal)),
        Err(Stop::TooLong) => refuse_by(out, long_file(alloc, k)),
        Err(Stop::Unread) => Status::ReadFault,
        Err(Stop::Memory) => Status::Memory,
    }
}

/// Executes statements in order, and writes the text of each before the next is executed.
pub fn run_statements<F: Files, S: Sink>(
    alloc: Global,
    session: &mut Session,
    statements: &[Statement],
    files: &mut F,
    out: &mut S,
) -> Status
    requires { list_all statement_written statements.now ≡ true }
    ensures lawful { EndsBy result (F.faults files.old) (F.faults files.new) (Writes (F.bytes files.old) 1 (plain_of session.old) statements.now) (S.written out.old) (S.written out.new) }
    ensures reading { SameReading result (F.faults files.old) (F.faults files.new) }
    ensures writing { CountsWriting result (S.faults out.old) (S.faults out.new) }
    ensures bytes { F.bytes files.new ≡ F.bytes files.old }
{
    for (place, statement) in statements.iter().enumerate() {
        match step(alloc, session, place + 1, statement, files, out) {
            Status::Done => {}
            status => return status,
        }
    }
    Status::Done
}
