//! A session after a statement that is refused.

ghost use Rattle.std.specs.Prelude.{◌≡◌, true, IfOk};
ghost use Rattle.pdw_engine.specs.Prepared.{Prepares};
ghost use Rattle.pdw_engine.specs.Ready.{HasPlan};
ghost use Rattle.pdw_syntax.specs.Written.{statement_written};

use super::queries::{files, meant, session_over};
use pdw_base::MOST_FILE_BYTES;
use pdw_engine::{Prepared, Session};
use pdw_outside::HonestFiles;
use pdw_run::Status;
use pdw_syntax::Statement;
use pdw_test_support::{executed, statements_of};
use std::alloc::Global;
use std::process::Abort;
use std::test::Fail;

// The file's third record has a field too many.
#[test]
fn a_table_keeps_its_rows_where_a_file_is_refused(rt: HostRuntime) -> Result<(), Fail> {
    let mut session = session_over(rt.alloc(), 3)?;
    let mut files = HonestFiles::new(files(rt.alloc())?);
    let status = executed(rt.alloc(), &mut session, "LOAD n FROM 'wide';", &mut files)?;
    assert_eq!(rt; status, Status::Refused);
    let rows = meant(rt.alloc(), session.appliance(), "SELECT a, b FROM n;")?;
    assert_eq!(rt; rows.as_str(), "1,\"x,y\" / 2,\"\" / 3,NULL");
    Ok(())
}

fn prepared(alloc: Global, session: &Session, statement: &Statement) -> Result<Prepared, Fail>
    requires { statement_written statement.now ≡ true }
    ensures prepared { IfOk result (λ prepared. Prepares session.now.contents.tables statement.now prepared.work) }
    ensures planned { IfOk result (HasPlan session.now) }
{
    match session.prepare(alloc, statement) {
        Ok(prepared) => Ok(prepared),
        Err(_) => Err("no fault")?,
    }
}

// Why the statement is refused with this content of its file, in the words of Debug.
fn refused(
    alloc: Global,
    session: &mut Session,
    statement: &Statement,
    content: &[u8],
) -> Result<String, Fail>
    requires { statement_written statement.now ≡ true }
{
    let prepared = prepared(alloc, session, statement)?;
    if prepared.want().is_none() || content.len() > MOST_FILE_BYTES {
        return Err("a file of the most bytes")?;
    }
    match session.execute(alloc, prepared, Some(content)) {
        Ok(_) => Ok(String::new(alloc)),
        Err(stop) => Ok(format!(in alloc; "{stop:?}")?),
    }
}

// LOAD of three records, of which the third has a field too many, into a table of three rows.
#[test]
fn a_second_file_is_refused_by_its_third_record(rt: HostRuntime) -> Result<(), Fail> {
    let alloc = rt.alloc();
    let mut session = session_over(alloc, 3)?;
    let statements = statements_of(alloc, "LOAD n FROM 'wide';")?;
    let [statement] = statements.as_slice() else {
        return Err("one statement")?;
    };
    let found = refused(alloc, &mut session, statement, b"4,u\n5,v\n6,w,z\n")?;
    assert_eq!(rt; found.as_str(), "Refused(Load(FieldCount { rec: 3 }))");
    let rows = meant(alloc, session.appliance(), "SELECT a, b FROM n;")?;
    assert_eq!(rt; rows.as_str(), "1,\"x,y\" / 2,\"\" / 3,NULL");
    Ok(())
}
