//! Runs whose reads and writes fail, at each of them in turn.

use super::runs::{PRINTED, RECORDS, Run, SCRIPT, bytes_of, entries, words_of};
use pdw_base::Str;
use pdw_outside::{Files, HonestFiles, HonestSink, MemFiles, MemSink, Sink};
use pdw_run::Status;
use pdw_run::run::run;
use std::alloc::Global;
use std::process::Abort;
use std::test::Fail;

const RUN: Run<'static> = Run {
    words: "run 1 s",
    script: SCRIPT,
    records: RECORDS,
};

fn status_of<F: Files, S: Sink>(alloc: Global, files: &mut F, out: &mut S) -> Result<Status, Fail> {
    let words = words_of(alloc, RUN.words)?;
    Ok(run(alloc, words.as_slice(), files, out))
}

// The run over these files ends so and writes this.
fn assert_over(
    rt: &impl Abort,
    alloc: Global,
    files: &mut MemFiles,
    status: Status,
    printed: &[u8],
) -> Result<(), Fail> {
    let mut out = HonestSink::new(alloc, 1_000)?;
    assert_eq!(rt; status_of(alloc, files, &mut out)?, status);
    assert_eq!(rt; out.written(), printed);
    Ok(())
}

// How many bytes are given at once at most, and how many reads the script takes and then the file, each with one that
// tells its end.
#[derive(Clone, Copy)]
struct Reads {
    piece: usize,
    of_script: u64,
    of_file: u64,
}

// How the run ends where the read of this number fails, and what it prints.
fn ended_at(reads: Reads, failing: u64) -> (Status, &'static str) {
    if failing <= reads.of_script {
        (Status::ReadFault, "")
    } else if failing - reads.of_script <= reads.of_file {
        (Status::ReadFault, "OK~")
    } else {
        (Status::Done, PRINTED)
    }
}

fn assert_read(rt: &impl Abort, alloc: Global, reads: Reads, failing: u64) -> Result<(), Fail> {
    assert!(rt; reads.piece >= 1);
    let (status, printed) = ended_at(reads, failing);
    let printed = bytes_of(alloc, printed)?;
    let entries = entries(alloc, RUN)?;
    let mut files = MemFiles::new(entries, vec![in alloc; failing]?, reads.piece);
    assert_over(rt, alloc, &mut files, status, printed.as_slice())
}

// Each read fails in turn, and then one that is not made.
fn assert_reads(rt: &impl Abort, alloc: Global, reads: Reads) -> Result<(), Fail> {
    let last = reads.of_script.saturating_add(reads.of_file);
    for failing in 1..last.saturating_add(2) {
        assert_read(rt, alloc, reads, failing)?;
    }
    Ok(())
}

#[test]
fn each_read_that_fails_ends_the_run(rt: HostRuntime) -> Result<(), Fail> {
    for reads in [
        Reads {
            piece: 1,
            of_script: 101,
            of_file: 10,
        },
        Reads {
            piece: 8,
            of_script: 14,
            of_file: 3,
        },
        Reads {
            piece: 1_000,
            of_script: 2,
            of_file: 2,
        },
    ] {
        assert_reads(&rt, rt.alloc(), reads)?;
    }
    Ok(())
}

// The script alone, under this name.
fn assert_missing(rt: &impl Abort, alloc: Global, name: &str, printed: &[u8]) -> Result<(), Fail> {
    let mut entries = Vec::new(alloc);
    entries.push((Str::from_text(alloc, name)?, bytes_of(alloc, SCRIPT)?))?;
    let mut files = MemFiles::new(entries, Vec::new(alloc), 1_000);
    assert_over(rt, alloc, &mut files, Status::ReadFault, printed)
}

#[test]
fn a_missing_file_ends_the_run(rt: HostRuntime) -> Result<(), Fail> {
    assert_missing(&rt, rt.alloc(), "s", b"OK\n")?;
    assert_missing(&rt, rt.alloc(), "t.csv", b"")
}

// A run whose writes take one byte each and fail after so many: it ends so where the whole text is written.
fn assert_cut(
    rt: &impl Abort,
    alloc: Global,
    run: Run<'_>,
    whole: &[u8],
    status: Status,
    done: usize,
) -> Result<(), Fail> {
    assert!(rt; done <= whole.len());
    let fails = vec![in alloc; done as u64 + 1]?;
    let mut files = HonestFiles::new(entries(alloc, run)?);
    let mut out = MemSink::new(alloc, fails, 1, 1_000)?;
    let found = status_of(alloc, &mut files, &mut out)?;
    let wanted = if done < whole.len() {
        Status::WriteFault
    } else {
        status
    };
    assert_eq!(rt; found, wanted, "{done}");
    assert_eq!(rt; out.written().len(), done);
    assert!(rt; whole.starts_with(out.written()), "{done}");
    Ok(())
}

// Each write of a run fails in turn.
fn assert_writes(
    rt: &impl Abort,
    alloc: Global,
    run: Run<'_>,
    printed: &str,
    status: Status,
) -> Result<(), Fail> {
    let whole = bytes_of(alloc, printed)?;
    for done in 0..whole.len() {
        assert_cut(rt, alloc, run, whole.as_slice(), status, done)?;
    }
    assert_cut(rt, alloc, run, whole.as_slice(), status, whole.len())
}

#[test]
fn each_write_that_fails_ends_the_run(rt: HostRuntime) -> Result<(), Fail> {
    assert_writes(&rt, rt.alloc(), RUN, PRINTED, Status::Done)?;
    let faulty = Run {
        records: "x,y~",
        ..RUN
    };
    let printed = "OK~REFUSED E17 STATEMENT 2 BADINT 1 1~";
    assert_writes(&rt, rt.alloc(), faulty, printed, Status::Refused)
}

// A run into a sink that keeps so many bytes alone.
fn assert_kept(rt: &impl Abort, alloc: Global, whole: &[u8], room: usize) -> Result<(), Fail> {
    let mut files = HonestFiles::new(entries(alloc, RUN)?);
    let mut out = MemSink::new(alloc, Vec::new(alloc), 5, room)?;
    assert_eq!(rt;
        status_of(alloc, &mut files, &mut out)?,
        Status::Done,
        "{room}"
    );
    assert_eq!(rt; out.written().len(), room);
    assert!(rt; whole.starts_with(out.written()), "{room}");
    Ok(())
}

#[test]
fn a_sink_without_room_keeps_the_first_bytes(rt: HostRuntime) -> Result<(), Fail> {
    let whole = bytes_of(rt.alloc(), PRINTED)?;
    for room in 0..whole.len() {
        assert_kept(&rt, rt.alloc(), whole.as_slice(), room)?;
    }
    assert_kept(&rt, rt.alloc(), whole.as_slice(), whole.len())
}
