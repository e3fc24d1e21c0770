//! Runs over a script and a file in memory, where neither a read nor a write fails.
//!
//! A case's text has `~` for a line end and `?` for the byte 255, which is no UTF-8.

use pdw_base::Str;
use pdw_outside::{HonestFiles, HonestSink};
use pdw_run::Status;
use pdw_run::run::run;
use pdw_test_support::expanded;
use std::alloc::Global;
use std::process::Abort;
use std::test::Fail;

/// The words, the script `s` and the file `t.csv` of a run.
#[derive(Clone, Copy)]
pub struct Run<'a> {
    pub words: &'a str,
    pub script: &'a str,
    pub records: &'a str,
}

/// A table of a number and a text, of which a file is loaded.
pub const SCRIPT: &str =
    "CREATE TABLE t (a INT, b TEXT) WITH (DISTRIBUTION = HASH(a));~LOAD t FROM 't.csv';~SELECT * FROM t;~";

/// Its two records.
pub const RECORDS: &str = "4,x~\\N,y~";

/// What is printed where they stand in their order.
pub const PRINTED: &str = "OK~LOADED 2~a,b~4,\"x\"~NULL,\"y\"~ROWS 2~";

/// The bytes that a case's text stands for.
pub fn bytes_of(alloc: Global, case: &str) -> Result<Vec<u8>, Fail> {
    let text = expanded(alloc, case)?;
    let mut bytes = Vec::with_capacity(alloc, text.len())?;
    for byte in text.as_bytes() {
        bytes.push(match *byte {
            b'~' => b'\n',
            b'?' => 0xFF,
            byte => byte,
        })?;
    }
    Ok(bytes)
}

fn word_of(alloc: Global, word: &str) -> Result<Str, Fail> {
    let mut text = String::new(alloc);
    for letter in word.chars() {
        text.push(if letter == '_' { ' ' } else { letter })?;
    }
    Ok(Str::from_text(alloc, text.as_str())?)
}

/// The words of a text, with `_` for a space inside a word. An empty text has none.
pub fn words_of(alloc: Global, text: &str) -> Result<Vec<Str>, Fail> {
    let mut words = Vec::new(alloc);
    if !text.is_empty() {
        for word in text.split(' ') {
            words.push(word_of(alloc, word)?)?;
        }
    }
    Ok(words)
}

/// The script and the file of a run.
pub fn entries(alloc: Global, run: Run<'_>) -> Result<Vec<(Str, Vec<u8>)>, Fail> {
    let mut files = Vec::new(alloc);
    files.push((Str::from_text(alloc, "s")?, bytes_of(alloc, run.script)?))?;
    files.push((
        Str::from_text(alloc, "t.csv")?,
        bytes_of(alloc, run.records)?,
    ))?;
    Ok(files)
}

/// How a run of these words over these files ends, and what it writes.
pub fn ended(
    alloc: Global,
    words: &str,
    files: Vec<(Str, Vec<u8>)>,
) -> Result<(Status, Vec<u8>), Fail> {
    let words = words_of(alloc, words)?;
    let mut files = HonestFiles::new(files);
    let mut out = HonestSink::new(alloc, 4_000_000)?;
    let status = run(alloc, words.as_slice(), &mut files, &mut out);
    Ok((status, Vec::from_slice(alloc, out.written())?))
}

/// A status as cases write it.
pub fn name_of(status: Status) -> &'static str {
    match status {
        Status::Done => "Done",
        Status::Refused => "Refused",
        Status::BadWords => "BadWords",
        Status::ReadFault => "ReadFault",
        Status::WriteFault => "WriteFault",
        Status::Memory => "Memory",
    }
}

// A status, and what is written where something is.
fn parts_of(wanted: &str) -> (&str, &str) {
    match wanted.split_once(' ') {
        Some((name, printed)) => (name, printed),
        None => (wanted, ""),
    }
}

/// A run over these files ends as a case says.
pub fn assert_ended(
    rt: &impl Abort,
    alloc: Global,
    words: &str,
    files: Vec<(Str, Vec<u8>)>,
    wanted: &str,
) -> Result<(), Fail> {
    let (name, printed) = parts_of(wanted);
    let printed = bytes_of(alloc, printed)?;
    let (status, text) = ended(alloc, words, files)?;
    assert_eq!(rt; name_of(status), name, "{wanted}");
    assert!(rt; text.as_slice() == printed.as_slice(), "{wanted}");
    Ok(())
}

/// A run ends as a case says.
pub fn assert_run(rt: &impl Abort, alloc: Global, run: Run<'_>, wanted: &str) -> Result<(), Fail> {
    assert_ended(rt, alloc, run.words, entries(alloc, run)?, wanted)
}

/// Cases of the end of a script.
pub fn assert_scripts(
    rt: &impl Abort,
    alloc: Global,
    run: Run<'_>,
    cases: &str,
) -> Result<(), Fail> {
    for line in cases.lines() {
        let (rest, wanted) = line.split_once(" => ").ok_or("an arrow")?;
        let script = [run.script, rest].concat(alloc)?;
        let script = script.as_str();
        assert_run(rt, alloc, Run { script, ..run }, wanted)?;
    }
    Ok(())
}

/// Cases of the records of a file.
pub fn assert_files(rt: &impl Abort, alloc: Global, run: Run<'_>, cases: &str) -> Result<(), Fail> {
    for line in cases.lines() {
        let (records, wanted) = line.split_once(" => ").ok_or("an arrow")?;
        assert_run(rt, alloc, Run { records, ..run }, wanted)?;
    }
    Ok(())
}
