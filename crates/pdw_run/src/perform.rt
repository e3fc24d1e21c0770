//! What each statement does to the session, and its text.

ghost use Rattle.std.specs.Prelude.{◌≡◌, ℕ, List, true, IfOk, IfErr, OnOk};
ghost use Rattle.std.specs.Option.{option_copied, option_map};
ghost use Rattle.pdw_syntax.specs.Written.{statement_written};
ghost use Rattle.pdw_syntax.specs.declared.statement.Statement.{Statement as StatementOf};
ghost use Rattle.pdw_engine.specs.Executes.{Gives as Answered, IsGiven};
ghost use Rattle.pdw_engine.specs.Plain.{plain_of};
ghost use Rattle.pdw_engine.specs.Prepared.{IsPrepared, Prepares, wanted};
ghost use Rattle.pdw_engine.specs.Ready.{HasPlan};
ghost use Rattle.pdw_run.specs.Output.{Gives, Held, IsTold};
ghost use Rattle.pdw_run.specs.Stops.{Stops, StopsAs, StopsFile};
ghost use Rattle.pdw_run.specs.Trace.{prints};

use crate::stop::{Stop, stopped};
use pdw_answer::Answer;
use pdw_base::MOST_FILE_BYTES;
use pdw_engine::{Prepared, Session};
use pdw_outside::{Files, ReadStop, read_whole};
use pdw_show::show_answer;
use pdw_syntax::Statement;
use std::alloc::Global;
use std::mem::drop;

// The content of the file that a statement wants, whole.
fn wanted_file<F: Files>(
    alloc: Global,
    prepared: &Prepared,
    files: &mut F,
) -> Result<Option<Vec<u8>>, Stop>
    ensures told { IfOk result (λ content. IsTold (F.bytes files.old) (wanted prepared.now.work) (option_map (λ bytes. bytes.items) content)) }
    ensures given { IfOk result (λ content. IsGiven prepared.now.work (option_map (λ bytes. bytes.items) content)) }
    ensures stop { IfErr result (StopsFile (F.bytes files.old) (F.faults files.old) (F.faults files.new) (wanted prepared.now.work)) }
    ensures quiet { OnOk result (F.faults files.new ≡ F.faults files.old) }
    ensures bytes { F.bytes files.new ≡ F.bytes files.old }
{
    let Some(want) = prepared.want() else {
        return Ok(None);
    };
    match read_whole(alloc, files, want.name.text(), MOST_FILE_BYTES) {
        Ok(content) => Ok(Some(content)),
        Err(ReadStop::TooLong) => Err(Stop::TooLong),
        Err(ReadStop::Failed) => Err(Stop::Unread),
        Err(ReadStop::Memory) => Err(Stop::Memory),
    }
}

// What a statement does, with a least plan of its query, or why it is refused.
fn prepare(alloc: Global, session: &Session, statement: &Statement) -> Result<Prepared, Stop>
    requires { statement_written statement.now ≡ true }
    ensures prepared { IfOk result (λ prepared. Prepares session.now.contents.tables statement.now prepared.work) }
    ensures planned { IfOk result (HasPlan session.now) }
    ensures stop { IfErr result (λ stop. (held : Held) (counts : List ℕ → ℕ) → Stops held counts counts (plain_of session.now) statement.now stop) }
{
    session.prepare(alloc, statement).map_err(stopped)
}

// The bytes of a file that was read.
fn bytes_of(file: &Option<Vec<u8>>) -> Option<&[u8]>
    ensures { option_copied result ≡ option_map (λ bytes. bytes.items) file.now }
{
    file.as_ref().map(|content| content.as_slice())
}

// What a statement answers that was prepared, with the bytes of the file that it wants.
fn answered(
    alloc: Global,
    session: &mut Session,
    prepared: Prepared,
    content: Option<&[u8]>,
) -> Result<Answer, Stop>
    requires prepared { IsPrepared session.old.contents.tables prepared.work }
    requires planned { HasPlan session.old prepared }
    requires given { IsGiven prepared.work (option_copied content) }
    ensures answer { IfOk result (λ answer. (statement : StatementOf) → statement_written statement ≡ true → Prepares session.old.contents.tables statement prepared.work → Answered (plain_of session.old) statement (option_copied content.entry) answer (plain_of session.new)) }
    ensures stop { IfErr result (StopsAs (plain_of session.old) prepared.work (option_copied content.entry)) }
{
    session.execute(alloc, prepared, content).map_err(stopped)
}

/// Judges a statement, executes it and gives its text.
pub fn execute<F: Files>(
    alloc: Global,
    session: &mut Session,
    statement: &Statement,
    files: &mut F,
) -> Result<Vec<u8>, Stop>
    requires { statement_written statement.now ≡ true }
    ensures text { IfOk result (λ text. Gives (F.bytes files.old) (plain_of session.old) statement.now (prints text.items) (plain_of session.new)) }
    ensures stop { IfErr result (Stops (F.bytes files.old) (F.faults files.old) (F.faults files.new) (plain_of session.old) statement.now) }
    ensures quiet { OnOk result (F.faults files.new ≡ F.faults files.old) }
    ensures bytes { F.bytes files.new ≡ F.bytes files.old }
{
    let prepared = prepare(alloc, session, statement)?;
    let file = match wanted_file(alloc, &prepared, files) {
        Ok(file) => file,
        Err(stop) => {
            drop(prepared);
            return Err(stop);
        }
    };
    let answer = answered(alloc, session, prepared, bytes_of(&file))?;
    Ok(show_answer(alloc, &answer)?)
}
