//! Statements that change the tables, and those that are not executed yet.

use super::runs::{Run, assert_scripts};
use std::test::Fail;

// A file of one record.
const ANY: Run<'static> = Run {
    words: "run 3 s",
    script: "",
    records: "1~",
};

const EXECUTED: &str = "\
-- nothing~ -- at all => Done
 => Done
CREATE TABLE r (a INT) WITH (DISTRIBUTION = REPLICATE);LOAD r FROM 't.csv'; SELECT * FROM r; => Done OK~LOADED 1~a~1~ROWS 1~
CREATE TABLE r (a INT) WITH (DISTRIBUTION = REPLICATE);load R from 't.csv'; LOAD r FROM 't.csv';~select all * -- twice~from R; => Done OK~LOADED 1~LOADED 1~a~1~1~ROWS 2~
CREATE TABLE r (a INT) WITH (DISTRIBUTION = REPLICATE);LOAD r FROM 't.csv'; DROP TABLE r; CREATE TABLE r (b TEXT NOT NULL) WITH (DISTRIBUTION = HASH(b)); SELECT * FROM r; => Done OK~LOADED 1~OK~OK~b~ROWS 0~
CREATE TABLE t (a INT, b TEXT) WITH (DISTRIBUTION = HASH(a));DROP TABLE t; => Done OK~OK~
CREATE TABLE e (k INT, v INT) WITH (DISTRIBUTION = HASH(k)); SELECT COUNT(*) FROM e; => Done OK~col1~0~ROWS 1~
CREATE TABLE e (k INT, v INT) WITH (DISTRIBUTION = HASH(k)); DROP TABLE e; SELECT k FROM e; => Refused OK~OK~REFUSED E9 STATEMENT 3 UNKNOWNTABLE e~
";

#[test]
fn statements_are_executed_in_order(rt: HostRuntime) -> Result<(), Fail> {
    assert_scripts(&rt, rt.alloc(), ANY, EXECUTED)
}

// The table t, and the same file.
const AFTER_TABLE: Run<'static> = Run {
    words: "run 3 s",
    script: "CREATE TABLE t (a INT, b TEXT) WITH (DISTRIBUTION = HASH(a));",
    records: "1~",
};

const REFUSED: &str = "\
CREATE TABLE t (c INT) WITH (DISTRIBUTION = REPLICATE); => Refused OK~REFUSED E8 STATEMENT 2 TABLEEXISTS t~
CREATE TABLE T (a INT, a INT) WITH (DISTRIBUTION = HASH(c)); => Refused OK~REFUSED E8 STATEMENT 2 TABLEEXISTS t~
CREATE TABLE u (a INT, b INT, A TEXT) WITH (DISTRIBUTION = HASH(c)); => Refused OK~REFUSED E10 STATEMENT 2 DUPLICATENAME a~
CREATE TABLE u (a INT) WITH (DISTRIBUTION = HASH(C)); => Refused OK~REFUSED E11 STATEMENT 2 UNKNOWNCOLUMN c~
LOAD u FROM 'none'; => Refused OK~REFUSED E9 STATEMENT 2 UNKNOWNTABLE u~
DROP TABLE u; => Refused OK~REFUSED E9 STATEMENT 2 UNKNOWNTABLE u~
DROP TABLE t; SELECT * FROM t; => Refused OK~OK~REFUSED E9 STATEMENT 3 UNKNOWNTABLE t~
LOAD t FROM 't.csv'; DROP TABLE t; => Refused OK~REFUSED E17 STATEMENT 2 FIELDCOUNT 1~
";

#[test]
fn the_first_fault_of_a_statement_is_printed(rt: HostRuntime) -> Result<(), Fail> {
    assert_scripts(&rt, rt.alloc(), AFTER_TABLE, REFUSED)
}

// Numbers of statistics and settings at both ends of their ranges, and outside.
const SETTINGS: &str = "\
UPDATE STATISTICS nosuch; DROP TABLE t; => Refused OK~REFUSED E9 STATEMENT 2 UNKNOWNTABLE nosuch~
UPDATE STATISTICS t; UPDATE STATISTICS t WITH ROWS 5; UPDATE STATISTICS t WITH ROWS 0, b DISTINCT 1 WIDTH 1000, a DISTINCT 1000000000000 WIDTH 1; => Done OK~OK~OK~OK~
UPDATE STATISTICS t WITH ROWS 5, b DISTINCT 1 WIDTH 1001; DROP TABLE t; => Refused OK~REFUSED E18 STATEMENT 2 BADSETTING width 1001~
SET BUDGET 0; DROP TABLE t; => Refused OK~REFUSED E18 STATEMENT 2 BADSETTING budget 0~
SET BUDGET 1; SET BUDGET 100000; SET BUDGET 100001; => Refused OK~OK~OK~REFUSED E18 STATEMENT 4 BADSETTING budget 100001~
SET COST READER 0; DROP TABLE t; => Refused OK~REFUSED E18 STATEMENT 2 BADSETTING reader 0~
SET COST READER 1; SET COST HASHREADER 2; SET COST NETWORK 3; SET COST WRITER 4; SET COST BULK 1000; SET COST CONTROL 6; => Done OK~OK~OK~OK~OK~OK~OK~
";

#[test]
fn statistics_and_settings_are_put(rt: HostRuntime) -> Result<(), Fail> {
    assert_scripts(&rt, rt.alloc(), AFTER_TABLE, SETTINGS)
}

const NOT_BUILT: &str = "\
PROFILE SELECT * FROM t; DROP TABLE t; => Refused OK~REFUSED E19 STATEMENT 2 NOTBUILT~
";

#[test]
fn other_forms_are_not_built(rt: HostRuntime) -> Result<(), Fail> {
    assert_scripts(&rt, rt.alloc(), AFTER_TABLE, NOT_BUILT)
}
