//! Tests of files and sinks.

ghost use Rattle.std.specs.Prelude.{◌≤◌};

use crate::values::bytes_of;
use pdw_base::Str;
use pdw_outside::{
    DiskFiles, Failed, HonestFiles, HonestSink, MemFiles, MemSink, ReadStop, StdSink, read_whole,
    write_whole,
};
use std::alloc::Global;
use std::fs;
use std::test::Fail;

const TABLE: &[u8] = b"id,name\n1,Ann\n";

const NAME: &str = "people.csv";

fn entry(alloc: Global, name: &str, content: &[u8]) -> Result<(Str, Vec<u8>), Fail> {
    let name = Str::from_text(alloc, name)?;
    Ok((name, Vec::from_slice(alloc, content)?))
}

// The table twice under one name, of which the second stands for nothing.
fn entries(alloc: Global) -> Result<Vec<(Str, Vec<u8>)>, Fail> {
    let mut files = Vec::new(alloc);
    files.push(entry(alloc, "empty.csv", b"")?)?;
    files.push(entry(alloc, NAME, TABLE)?)?;
    files.push(entry(alloc, NAME, b"other")?)?;
    Ok(files)
}

// What stands under each name, between bars.
const GIVEN: &str = "\
people.csv => |id,name~1,Ann~|
empty.csv => ||
none.csv => ||";

// The bytes of a case that stand between bars.
fn between_bars(alloc: Global, case: &str) -> Result<Vec<u8>, Fail> {
    let rest = case.strip_prefix('|').ok_or("a bar")?;
    bytes_of(alloc, rest.strip_suffix('|').ok_or("a second bar")?)
}

fn gives_so(alloc: Global, files: &mut HonestFiles, line: &str) -> Result<bool, Fail> {
    let (name, content) = line.split_once(" => ").ok_or("an arrow")?;
    let content = between_bars(alloc, content)?;
    let found = read_whole(alloc, files, name, 100)?;
    Ok(found.as_slice() == content.as_slice())
}

#[test]
fn honest_files_give_the_first_entry_of_a_name(rt: HostRuntime) -> Result<(), Fail> {
    let mut files = HonestFiles::new(entries(rt.alloc())?);
    for line in GIVEN.lines() {
        assert!(rt; gives_so(rt.alloc(), &mut files, line)?, "{line}");
    }
    Ok(())
}

// Whether the table was read, or why not.
fn is_read(found: &Result<Vec<u8>, ReadStop>, wanted: &str) -> bool {
    match found {
        Ok(bytes) => wanted == "read" && bytes.as_slice() == TABLE,
        Err(ReadStop::Failed) => wanted == "failed",
        Err(ReadStop::TooLong) => wanted == "too long",
        Err(ReadStop::Memory) => false,
    }
}

// The entries, of which a read gives so many bytes at most, and whose read of this number fails. None has the number 0.
fn scripted(alloc: Global, piece: usize, failing: u64) -> Result<MemFiles, Fail>
    requires { 1 ≤ piece }
{
    let fails = vec![in alloc; 0, failing]?;
    Ok(MemFiles::new(entries(alloc)?, fails, piece))
}

// Whether the table is read so within a limit.
fn reads_so(
    alloc: Global,
    piece: usize,
    failing: u64,
    limit: u32,
    wanted: &str,
) -> Result<bool, Fail>
    requires { 1 ≤ piece }
{
    let mut files = scripted(alloc, piece, failing)?;
    let found = read_whole(alloc, &mut files, NAME, limit as usize);
    Ok(is_read(&found, wanted))
}

// How many bytes a read gives at most, and how many reads the table then takes. The last gives nothing, which tells the
// end.
const READS: &str = "\
1 15
5 4
7 3
100 2";

// Each of the reads fails in turn, and then one that is not made.
fn each_read_fails(alloc: Global, piece: usize, reads: u64) -> Result<bool, Fail>
    requires { 1 ≤ piece }
{
    for failing in 1..reads.saturating_add(1) {
        if !reads_so(alloc, piece, failing, 100, "failed")? {
            return Ok(false);
        }
    }
    reads_so(alloc, piece, reads.saturating_add(1), 100, "read")
}

fn reads_are_told(alloc: Global, line: &str) -> Result<bool, Fail> {
    let (piece, reads) = line.split_once(' ').ok_or("two numbers")?;
    let piece = piece.parse::<usize>()?;
    if piece == 0 {
        return Ok(false);
    }
    each_read_fails(alloc, piece, reads.parse::<u64>()?)
}

#[test]
fn each_read_that_fails_is_told(rt: HostRuntime) -> Result<(), Fail> {
    for line in READS.lines() {
        assert!(rt; reads_are_told(rt.alloc(), line)?, "{line}");
    }
    Ok(())
}

#[test]
fn an_unknown_name_fails(rt: HostRuntime) -> Result<(), Fail> {
    let alloc = rt.alloc();
    let mut files = MemFiles::new(entries(alloc)?, Vec::new(alloc), 5);
    let found = read_whole(alloc, &mut files, "none.csv", 100);
    assert!(rt; found.is_err_and(|stop| stop == ReadStop::Failed));
    Ok(())
}

// Limits, how many bytes a read gives at most, and how the table is read. A read behind one byte more than the limit
// fails.
const LIMITS: &str = "\
14 1 => read
13 1 => too long
14 14 => read
13 14 => too long
0 3 => too long";

fn keeps_limit(alloc: Global, line: &str) -> Result<bool, Fail> {
    let (numbers, wanted) = line.split_once(" => ").ok_or("an arrow")?;
    let (limit, piece) = numbers.split_once(' ').ok_or("two numbers")?;
    let limit = limit.parse::<u32>()?;
    let piece = piece.parse::<usize>()?;
    if piece == 0 {
        return Ok(false);
    }
    reads_so(alloc, piece, limit as u64 + 2, limit, wanted)
}

#[test]
fn a_file_of_more_bytes_than_the_limit_is_too_long(rt: HostRuntime) -> Result<(), Fail> {
    for line in LIMITS.lines() {
        assert!(rt; keeps_limit(rt.alloc(), line)?, "{line}");
    }
    Ok(())
}

// The number of the write that fails, how much a write takes, the room, whether all is written, and what is kept.
const WRITES: &str = "\
1 5 100 => cut ||
2 5 100 => cut |id,na|
3 5 100 => cut |id,name~1,|
4 5 100 => done |id,name~1,Ann~|
0 1 14 => done |id,name~1,Ann~|
14 1 14 => cut |id,name~1,Ann|
0 5 7 => done |id,name|
3 5 7 => cut |id,name|
0 100 0 => done ||";

// A sink of these three numbers.
fn sink_of(alloc: Global, numbers: &str) -> Result<MemSink, Fail> {
    let (failing, rest) = numbers.split_once(' ').ok_or("a second number")?;
    let (piece, room) = rest.split_once(' ').ok_or("a third number")?;
    let (failing, room) = (failing.parse::<u64>()?, room.parse::<usize>()?);
    let piece = piece.parse::<usize>()?;
    if piece == 0 {
        return Err("a write of some bytes")?;
    }
    Ok(MemSink::new(alloc, vec![in alloc; failing]?, piece, room)?)
}

// Whether the sink takes the table so, and keeps these bytes.
fn takes_so(sink: &mut MemSink, wanted: &str, kept: &[u8]) -> bool {
    let done = write_whole(sink, TABLE).is_ok();
    done == (wanted == "done") && sink.written() == kept
}

fn writes_so(alloc: Global, line: &str) -> Result<bool, Fail> {
    let (numbers, rest) = line.split_once(" => ").ok_or("an arrow")?;
    let (wanted, kept) = rest.split_once(' ').ok_or("an end")?;
    let kept = between_bars(alloc, kept)?;
    let mut sink = sink_of(alloc, numbers)?;
    Ok(takes_so(&mut sink, wanted, kept.as_slice()))
}

#[test]
fn each_write_that_fails_leaves_what_came_before(rt: HostRuntime) -> Result<(), Fail> {
    for line in WRITES.lines() {
        assert!(rt; writes_so(rt.alloc(), line)?, "{line}");
    }
    Ok(())
}

// Rooms, and what is kept of the table.
const ROOMS: &str = "\
100 => |id,name~1,Ann~|
14 => |id,name~1,Ann~|
9 => |id,name~1|";

fn keeps_so(alloc: Global, line: &str) -> Result<bool, Fail> {
    let (room, kept) = line.split_once(" => ").ok_or("an arrow")?;
    let kept = between_bars(alloc, kept)?;
    let mut sink = HonestSink::new(alloc, room.parse::<usize>()?)?;
    write_whole(&mut sink, TABLE)?;
    Ok(sink.written() == kept.as_slice())
}

#[test]
fn an_honest_sink_keeps_what_it_has_room_for(rt: HostRuntime) -> Result<(), Fail> {
    for line in ROOMS.lines() {
        assert!(rt; keeps_so(rt.alloc(), line)?, "{line}");
    }
    Ok(())
}

#[test]
fn a_file_of_the_disk_is_read(rt: HostRuntime) -> Result<(), Fail> {
    let alloc = rt.alloc();
    let name = format!(in alloc; "/tmp/pdw_outside_{}.csv", std::process::id(rt.process()))?;
    fs::write(&rt, name.as_str(), TABLE)?;
    let mut files = DiskFiles::new(&rt);
    let found = read_whole(alloc, &mut files, name.as_str(), 14);
    let longer = read_whole(alloc, &mut files, name.as_str(), 13);
    fs::remove_file(&rt, name.as_str())?;
    let removed = read_whole(alloc, &mut files, name.as_str(), 14);
    assert_eq!(rt; found?.as_slice(), TABLE);
    assert!(rt; longer.is_err_and(|stop| stop == ReadStop::TooLong));
    assert!(rt; removed.is_err_and(|stop| stop == ReadStop::Failed));
    Ok(())
}

#[test]
fn the_output_takes_a_text(rt: HostRuntime) -> Result<(), Fail> {
    write_whole(&mut StdSink::new(&rt), TABLE)?;
    Ok(())
}

fn says(alloc: Global, stop: ReadStop, wanted: &str) -> Result<bool, Fail> {
    Ok(stop.to_string(alloc)?.as_str() == wanted)
}

fn failed_says(alloc: Global, wanted: &str) -> Result<bool, Fail> {
    Ok(Failed.to_string(alloc)?.as_str() == wanted)
}

#[test]
fn errors_are_told_in_words(rt: HostRuntime) -> Result<(), Fail> {
    let alloc = rt.alloc();
    assert!(rt; says(alloc, ReadStop::Failed, "the file cannot be read")?);
    assert!(rt; says(alloc, ReadStop::TooLong, "the file is too long")?);
    assert!(rt; says(alloc, ReadStop::Memory, "out of memory")?);
    assert!(rt; failed_says(alloc, "a call of the outside failed")?);
    Ok(())
}
