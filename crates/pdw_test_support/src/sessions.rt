//! Sessions after a script.

ghost use Rattle.std.specs.Prelude.{◌≡◌, true, IfOk};
ghost use Rattle.std.specs.List.{list_all};
ghost use Rattle.pdw_syntax.specs.Written.{statement_written};

use pdw_base::{MOST_SCRIPT_BYTES, NodeCount};
use pdw_engine::Session;
use pdw_outside::{HonestFiles, HonestSink};
use pdw_run::{Status, read_script, run_statements};
use pdw_syntax::Statement;
use sqlite_items::Items;
use std::alloc::Global;
use std::test::Fail;

/// The statements of a script.
pub fn statements_of(alloc: Global, script: &str) -> Result<Items<Statement>, Fail>
    ensures { IfOk result (λ statements. list_all statement_written statements ≡ true) }
{
    if script.len() > MOST_SCRIPT_BYTES {
        return Err("a script too long")?;
    }
    match read_script(alloc, script.as_bytes()) {
        Ok(statements) => Ok(statements),
        Err(_) => Err("no script")?,
    }
}

/// How the statements of a script end in a session. What they print is lost.
pub fn executed(
    alloc: Global,
    session: &mut Session,
    script: &str,
    files: &mut HonestFiles,
) -> Result<Status, Fail> {
    let statements = statements_of(alloc, script)?;
    let mut out = HonestSink::new(alloc, 0)?;
    Ok(run_statements(alloc, session, statements.as_slice(), files, &mut out))
}

/// A session over so many nodes after a script, whose statements are all executed.
pub fn session_after(
    alloc: Global,
    nodes: u32,
    script: &str,
    files: &mut HonestFiles,
) -> Result<Session, Fail> {
    let nodes = NodeCount::new(nodes).ok_or("1 to 16 nodes")?;
    let mut session = Session::new(alloc, nodes)?;
    match executed(alloc, &mut session, script, files)? {
        Status::Done => Ok(session),
        _ => Err("a refusal")?,
    }
}
