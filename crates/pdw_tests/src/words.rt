//! The words of the command line.

use super::runs::{PRINTED, RECORDS, Run, SCRIPT, assert_run, bytes_of, entries, words_of};
use pdw_outside::{MemFiles, MemSink, read_whole, write_whole};
use pdw_run::Status;
use pdw_run::run::run;
use std::alloc::Global;
use std::process::Abort;
use std::test::Fail;

// The words, and how their run ends. Two spaces have an empty word between them.
const CASES: &str = "\
run 1 s => Done OK~
run 9 s => Done OK~
run 16 s => Done OK~
 => BadWords
run => BadWords
run 4 => BadWords
run 4 s 5 => BadWords
walk 4 s => BadWords
RUN 4 s => BadWords
run 0 s => BadWords
run 17 s => BadWords
run 04 s => BadWords
run +4 s => BadWords
run -4 s => BadWords
run 4_ s => BadWords
run  s => BadWords
run 4294967300 s => BadWords
demo 1 2 => BadWords
";

fn assert_words(rt: &impl Abort, alloc: Global, run: Run<'_>, cases: &str) -> Result<(), Fail> {
    for line in cases.lines() {
        let (words, wanted) = line.split_once(" => ").ok_or("an arrow")?;
        assert_run(rt, alloc, Run { words, ..run }, wanted)?;
    }
    Ok(())
}

#[test]
fn words_of_another_form_run_nothing(rt: HostRuntime) -> Result<(), Fail> {
    let run = Run {
        words: "",
        script: "CREATE TABLE t (a INT) WITH (DISTRIBUTION = REPLICATE);",
        records: "",
    };
    assert_words(&rt, rt.alloc(), run, CASES)
}

// Words without a form.
const FORMLESS: &str = "\
run
run 4
run 4 s t.csv
run 0 s
run 17 s
walk 4 s
s
";

const RUN: Run<'static> = Run {
    words: "run 4 s",
    script: SCRIPT,
    records: RECORDS,
};

// The first call of each is still to come: it fails, and the second does not.
fn assert_untouched(
    rt: &impl Abort,
    alloc: Global,
    files: &mut MemFiles,
    out: &mut MemSink,
) -> Result<(), Fail> {
    let printed = bytes_of(alloc, PRINTED)?;
    assert!(rt; out.written().is_empty());
    assert!(rt; write_whole(out, printed.as_slice()).is_err());
    assert!(rt; write_whole(out, printed.as_slice()).is_ok());
    assert!(rt; read_whole(alloc, files, "s", 1_000).is_err());
    assert!(rt; read_whole(alloc, files, "s", 1_000).is_ok());
    Ok(())
}

// The words are bad, and neither a file nor the sink was called.
fn assert_nothing_done(rt: &impl Abort, alloc: Global, words: &str) -> Result<(), Fail> {
    let words = words_of(alloc, words)?;
    let mut files = MemFiles::new(entries(alloc, RUN)?, vec![in alloc; 1]?, 1_000);
    let mut out = MemSink::new(alloc, vec![in alloc; 1]?, 1_000, 1_000)?;
    let status = run(alloc, words.as_slice(), &mut files, &mut out);
    assert_eq!(rt; status, Status::BadWords);
    assert_untouched(rt, alloc, &mut files, &mut out)
}

#[test]
fn words_of_another_form_read_and_write_nothing(rt: HostRuntime) -> Result<(), Fail> {
    for words in FORMLESS.lines() {
        assert_nothing_done(&rt, rt.alloc(), words)?;
    }
    Ok(())
}

#[test]
fn each_status_has_its_own_code(rt: HostRuntime) {
    for (status, code) in [
        (Status::Done, 0),
        (Status::Refused, 1),
        (Status::BadWords, 2),
        (Status::ReadFault, 3),
        (Status::WriteFault, 4),
        (Status::Memory, 5),
    ] {
        assert_eq!(rt; status.exit_code(), code);
    }
}
