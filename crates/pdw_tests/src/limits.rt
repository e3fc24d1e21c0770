//! Scripts, files and tables that are as large as they may be, and larger.

use super::runs::{RECORDS, Run, SCRIPT, assert_ended, assert_files, assert_scripts, bytes_of};
use pdw_base::Str;
use std::alloc::Global;
use std::process::Abort;
use std::test::Fail;

const SCRIPTS: Run<'static> = Run {
    words: "run 4 s",
    script: "",
    records: RECORDS,
};

// Scripts of spaces, tables with columns, and many tables.
const SIZES: &str = "\
{1048576: } => Done
{1048577: } => Refused REFUSED E16 LIMIT script 1048576~
CREATE TABLE t (a INT{31:, c# INT}) WITH (DISTRIBUTION = HASH(a)); => Done OK~
CREATE TABLE t (a INT{32:, c# INT}) WITH (DISTRIBUTION = HASH(a)); => Refused REFUSED E16 STATEMENT 1 LIMIT columns 32~
{64:CREATE TABLE t# (a INT) WITH (DISTRIBUTION = REPLICATE);} => Done {64:OK~}
{65:CREATE TABLE t# (a INT) WITH (DISTRIBUTION = REPLICATE);} => Refused {64:OK~}REFUSED E16 STATEMENT 65 LIMIT tables 64~
LOAD t FROM '{1001:f}'; => Refused REFUSED E5 LONGTEXT AT 12~
";

#[test]
fn scripts_keep_their_limits(rt: HostRuntime) -> Result<(), Fail> {
    assert_scripts(&rt, rt.alloc(), SCRIPTS, SIZES)
}

const QUERIES: Run<'static> = Run {
    words: "run 4 s",
    script: "CREATE TABLE t (a INT, b TEXT) WITH (DISTRIBUTION = HASH(a));~SELECT 1 FROM ",
    records: "",
};

// Three derived tables, each with others inside it. With them the statement has 64 queries, 65 and 67.
const NESTED: &str = "\
{21:(SELECT a FROM }t){20: AS w)} AS x, {21:(SELECT a FROM }t){20: AS w)} AS y, {21:(SELECT a FROM }t){20: AS w)} AS z; => Done OK~col1~ROWS 0~
{22:(SELECT a FROM }t){21: AS w)} AS x, {21:(SELECT a FROM }t){20: AS w)} AS y, {21:(SELECT a FROM }t){20: AS w)} AS z; => Refused OK~REFUSED E16 STATEMENT 2 LIMIT queries 64~
{22:(SELECT a FROM }t){21: AS w)} AS x, {22:(SELECT a FROM }t){21: AS w)} AS y, {22:(SELECT a FROM }t){21: AS w)} AS z; => Refused OK~REFUSED E16 STATEMENT 2 LIMIT queries 64~
";

#[test]
fn a_statement_has_at_most_64_queries(rt: HostRuntime) -> Result<(), Fail> {
    assert_scripts(&rt, rt.alloc(), QUERIES, NESTED)
}

const HASHED: Run<'static> = Run {
    words: "run 4 s",
    script: "CREATE TABLE t (a INT) WITH (DISTRIBUTION = HASH(a));~LOAD t FROM 't.csv';~SELECT * FROM t;~",
    records: "",
};

const HASHED_ROWS: &str = "\
{1000000:1~} => Done OK~LOADED 1000000~a~{1000000:1~}ROWS 1000000~
{1000001:1~} => Refused OK~REFUSED E16 STATEMENT 2 LIMIT rows 1000000~
";

#[test]
fn a_hash_distributed_table_has_at_most_a_million_rows(rt: HostRuntime) -> Result<(), Fail> {
    assert_files(&rt, rt.alloc(), HASHED, HASHED_ROWS)
}

const REPLICATED: Run<'static> = Run {
    words: "run 4 s",
    script: "CREATE TABLE t (a INT) WITH (DISTRIBUTION = REPLICATE);~LOAD t FROM 't.csv';~SELECT * FROM t;~",
    records: "",
};

const REPLICATED_ROWS: &str = "\
{100000:1~} => Done OK~LOADED 100000~a~{100000:1~}ROWS 100000~
{100001:1~} => Refused OK~REFUSED E16 STATEMENT 2 LIMIT rows 100000~
";

#[test]
fn a_replicated_table_has_at_most_100000_rows(rt: HostRuntime) -> Result<(), Fail> {
    assert_files(&rt, rt.alloc(), REPLICATED, REPLICATED_ROWS)
}

// A file of one record of so many bytes, loaded into a table of two columns.
fn assert_large(rt: &impl Abort, alloc: Global, length: usize, wanted: &str) -> Result<(), Fail> {
    let mut files = Vec::new(alloc);
    files.push((Str::from_text(alloc, "s")?, bytes_of(alloc, SCRIPT)?))?;
    files.push((Str::from_text(alloc, "t.csv")?, b"x".repeat(alloc, length)?))?;
    assert_ended(rt, alloc, "run 4 s", files, wanted)
}

#[test]
fn a_file_of_the_most_bytes_is_read(rt: HostRuntime) -> Result<(), Fail> {
    let wanted = "Refused OK~REFUSED E17 STATEMENT 2 FIELDCOUNT 1~";
    assert_large(&rt, rt.alloc(), 67_108_864, wanted)
}

#[test]
fn a_file_of_too_many_bytes_is_refused(rt: HostRuntime) -> Result<(), Fail> {
    let wanted = "Refused OK~REFUSED E16 STATEMENT 2 LIMIT file 67108864~";
    assert_large(&rt, rt.alloc(), 67_108_865, wanted)
}
