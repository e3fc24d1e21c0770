//! Statements and faults of scripts, by tables of scripts and what each of them shows.

use crate::dump::{Shown, statement};
use crate::{faults, levels, spellings, trees};
use pdw_ast::print_statement;
use pdw_lex::lex;
use pdw_parse::{ParseError, parse};
use std::alloc::Global;
use std::test::Fail;

/// Scripts with what they show behind an arrow, one on each line, and what stands before and after each of both.
#[derive(Clone, Copy)]
struct Table {
    lines: &'static str,
    head: &'static str,
    tail: &'static str,
    before: &'static str,
    after: &'static str,
}

// Whole scripts.
const fn scripts(lines: &'static str) -> Table {
    Table {
        lines,
        head: "",
        tail: "",
        before: "",
        after: "",
    }
}

fn put_fault(out: &mut Shown, fault: ParseError) {
    match fault {
        ParseError::Syntax { at } => {
            out.put("syntax ");
            out.put_number(i64::from(at));
        }
        ParseError::TooDeep { at } => {
            out.put("deep ");
            out.put_number(i64::from(at));
        }
        ParseError::Memory => out.put("memory"),
    }
}

// The statements of a script with a semicolon after each, or the place of its fault.
fn shown(alloc: Global, script: &str) -> Result<Shown, Fail> {
    let mut out = Shown::new(alloc);
    if script.len() > 1_048_576 {
        out.put("too long");
        return Ok(out);
    }
    let tokens = lex(alloc, script.as_bytes())?;
    match parse(alloc, &tokens, script.len() as u32) {
        Ok(statements) => {
            for found in statements.as_slice() {
                statement(&mut out, found);
                out.put(";");
            }
        }
        Err(fault) => put_fault(&mut out, fault),
    }
    Ok(out)
}

// Whether the script of a line shows what stands behind the arrow.
fn holds(alloc: Global, table: &Table, line: &str) -> Result<bool, Fail> {
    let (script, wanted) = line.split_once(" => ").ok_or("an arrow")?;
    let whole = format!(in alloc; "{}{script}{}", table.head, table.tail)?;
    let tree = format!(in alloc; "{}{wanted}{}", table.before, table.after)?;
    Ok(shown(alloc, whole.as_str())?.is(tree.as_str()))
}

// The first line of a table that does not hold.
fn failing(alloc: Global, table: &Table) -> Result<Option<&'static str>, Fail> {
    for line in table.lines.lines() {
        if !holds(alloc, table, line)? {
            return Ok(Some(line));
        }
    }
    Ok(None)
}

#[test]
fn scripts_have_their_trees(rt: HostRuntime) -> Result<(), Fail> {
    let alloc = rt.alloc();
    let conditions = Table {
        lines: trees::CONDITIONS,
        head: "SELECT a FROM t WHERE ",
        tail: ";",
        before: "<all a from [t] where ",
        after: ">;",
    };
    assert_eq!(rt; failing(alloc, &scripts(trees::STATEMENTS))?, None);
    assert_eq!(rt; failing(alloc, &conditions)?, None);
    Ok(())
}

#[test]
fn scripts_have_their_first_fault(rt: HostRuntime) -> Result<(), Fail> {
    let alloc = rt.alloc();
    let conditions = Table {
        lines: faults::CONDITIONS,
        head: "SELECT a FROM t WHERE ",
        tail: ";",
        before: "",
        after: "",
    };
    assert_eq!(rt; failing(alloc, &scripts(faults::SCRIPTS))?, None);
    assert_eq!(rt; failing(alloc, &conditions)?, None);
    Ok(())
}

#[test]
fn parentheses_have_32_levels(rt: HostRuntime) -> Result<(), Fail> {
    let alloc = rt.alloc();
    assert_eq!(rt; failing(alloc, &scripts(levels::ALLOWED))?, None);
    assert_eq!(rt; failing(alloc, &scripts(levels::FAULTS))?, None);
    Ok(())
}

// The canonical spelling of the first statement of a script.
fn spelled(alloc: Global, script: &str) -> Result<Vec<u8>, Fail> {
    if script.len() > 1_048_576 {
        return Ok(Vec::new(alloc));
    }
    let tokens = lex(alloc, script.as_bytes())?;
    let statements = parse(alloc, &tokens, script.len() as u32)?;
    let first = statements.as_slice().first().ok_or("a statement")?;
    Ok(print_statement(alloc, first)?)
}

// Whether the script of a line is spelled as it says, and the spelling too.
fn is_spelled(alloc: Global, line: &str) -> Result<bool, Fail> {
    let (script, wanted) = line.split_once(" => ").ok_or("an arrow")?;
    let again = format!(in alloc; "{wanted} ;")?;
    Ok(
        spelled(alloc, script)?.as_slice() == wanted.as_bytes()
            && spelled(alloc, again.as_str())?.as_slice() == wanted.as_bytes(),
    )
}

#[test]
fn statements_are_spelled_canonically(rt: HostRuntime) -> Result<(), Fail> {
    let alloc = rt.alloc();
    for line in spellings::SPELLINGS.lines() {
        assert!(rt; is_spelled(alloc, line)?, "{line}");
    }
    Ok(())
}

// A head, a part many times, and a tail.
fn repeated(
    alloc: Global,
    head: &str,
    part: &str,
    times: usize,
    tail: &str,
) -> Result<String, Fail> {
    let mut text = String::from_str(alloc, head)?;
    for _ in 0..times {
        text.push_str(part)?;
    }
    text.push_str(tail)?;
    Ok(text)
}

#[test]
fn a_script_fills_its_limit(rt: HostRuntime) -> Result<(), Fail> {
    let alloc = rt.alloc();
    let sum = repeated(alloc, "SELECT a", "+a", 524_000, " FROM t;")?;
    let wanted = repeated(alloc, "<all [a", " + a", 524_000, "] from [t]>;")?;
    assert!(rt; shown(alloc, sum.as_str())?.is(wanted.as_str()));
    let many = repeated(alloc, "", "SELECT (a) FROM t;", 20_000, "SELECT (a FROM t;")?;
    assert!(rt; shown(alloc, many.as_str())?.is("syntax 360010"));
    Ok(())
}
