//! SELECTs through the whole program, over several numbers of nodes.

use super::queries::{TABLES, files};
use super::runs::{Run, assert_ended, assert_scripts, bytes_of, ended};
use pdw_base::Str;
use pdw_run::Status;
use std::alloc::Global;
use std::process::Abort;
use std::test::Fail;

// A SELECT on each line, and what it prints.
const PRINTED: &str = "\
SELECT COUNT(*) FROM e; => col1~0~ROWS 1~
SELECT * FROM r ORDER BY a; => a,b~1,\"a \"\"q\"\"\"~2,\"x\"~ROWS 2~
SELECT b, COUNT(*) FROM l LEFT JOIN m ON a = b GROUP BY b ORDER BY b; => b,col2~NULL,2~2,1~ROWS 2~
SELECT a, b FROM f FULL JOIN g ON a = b ORDER BY a, b; => a,b~NULL,NULL~NULL,NULL~NULL,2~1,1~ROWS 4~
SELECT a FROM p WHERE a NOT IN (SELECT b FROM q); => a~ROWS 0~
SELECT a FROM h WHERE a NOT IN (SELECT k FROM e) ORDER BY a; => a~NULL~5~ROWS 2~
SELECT SUM(v) FROM s WHERE k < 2; => col1~NULL~ROWS 1~
SELECT SUM(v) FROM s; => col1~9223372036854775807~ROWS 1~
SELECT k, 1 / 0, v * 2, -7 / 2, -7 % 2 FROM s WHERE k = 0; => k,col2,col3,col4,col5~0,NULL,NULL,-3,-1~ROWS 1~
SELECT g FROM t ORDER BY g; => g~NULL~NULL~5~5~ROWS 4~
SELECT k, g FROM t ORDER BY g DESC, k DESC; => k,g~4,5~2,5~3,NULL~1,NULL~ROWS 4~
SELECT k AS g, g AS k FROM t ORDER BY 2, g DESC; => g,k~3,NULL~1,NULL~4,5~2,5~ROWS 4~
SELECT d.g, d.c FROM (SELECT g, COUNT(*) AS c FROM t GROUP BY g) AS d WHERE d.c > 1 ORDER BY g; => g,c~NULL,2~5,2~ROWS 2~
SELECT a, b FROM n ORDER BY a; => a,b~1,\"x,y\"~2,\"\"~3,NULL~ROWS 3~
SELECT a FROM w WHERE a LIKE '_b%' ORDER BY a; => a~\"ab\"~\"xb\"~\"éb1\"~ROWS 3~
SELECT region, month, SUM(qty) AS total, COUNT(*) AS n FROM sales JOIN stores ON store = store_id JOIN items ON item = item_id JOIN days ON day = day_id WHERE qty > 1 AND EXISTS (SELECT * FROM promo WHERE promo.item = item_id) GROUP BY region, month HAVING SUM(qty) > 2 ORDER BY total DESC, region; => region,month,total,n~\"north\",1,15,3~\"south\",1,4,1~ROWS 2~
";

// The tables with the queries, and what the queries print.
fn queries_of(alloc: Global, cases: &str) -> Result<(String, String), Fail> {
    let mut script = String::from_str(alloc, TABLES)?;
    let mut printed = String::new(alloc);
    for line in cases.lines() {
        let (query, text) = line.split_once(" => ").ok_or("an arrow")?;
        script.push_str(query)?;
        printed.push_str(text)?;
    }
    Ok((script, printed))
}

// The files of the tables, and a script.
fn files_with(alloc: Global, script: &str) -> Result<Vec<(Str, Vec<u8>)>, Fail> {
    let mut files = files(alloc)?;
    files.push((Str::from_text(alloc, "script")?, bytes_of(alloc, script)?))?;
    Ok(files)
}

// A run of these words ends with what the queries print.
fn assert_printed(
    rt: &impl Abort,
    alloc: Global,
    words: &str,
    script: &str,
    printed: &str,
) -> Result<(), Fail> {
    let printed = bytes_of(alloc, printed)?;
    let (status, text) = ended(alloc, words, files_with(alloc, script)?)?;
    assert_eq!(rt; status, Status::Done, "{words}");
    assert!(rt; text.ends_with(printed.as_slice()), "{words}");
    Ok(())
}

#[test]
fn the_program_prints_the_rows(rt: HostRuntime) -> Result<(), Fail> {
    let (script, printed) = queries_of(rt.alloc(), PRINTED)?;
    for words in [
        "run 1 script",
        "run 2 script",
        "run 3 script",
        "run 4 script",
        "run 16 script",
    ] {
        assert_printed(&rt, rt.alloc(), words, script.as_str(), printed.as_str())?;
    }
    Ok(())
}

// The second file has a field too many.
#[test]
fn a_later_file_that_is_refused_is_named(rt: HostRuntime) -> Result<(), Fail> {
    let script =
        "CREATE TABLE m (a INT, b TEXT) WITH (DISTRIBUTION = HASH(a)); LOAD m FROM 'n'; SELECT a, b FROM m ORDER BY a; LOAD m FROM 'wide';";
    let wanted =
        "Refused OK~LOADED 3~a,b~1,\"x,y\"~2,\"\"~3,NULL~ROWS 3~REFUSED E17 STATEMENT 4 FIELDCOUNT 3~";
    let files = files_with(rt.alloc(), script)?;
    assert_ended(&rt, rt.alloc(), "run 4 script", files, wanted)
}

const AFTER_TABLE: Run<'static> = Run {
    words: "run 3 s",
    script: "CREATE TABLE t (a INT, b TEXT) WITH (DISTRIBUTION = HASH(a));",
    records: "",
};

// A query that is refused as the second statement on each line.
const REFUSED: &str = "\
SELECT a FROM t, t; => Refused OK~REFUSED E10 STATEMENT 2 DUPLICATENAME t~
SELECT x FROM t; => Refused OK~REFUSED E11 STATEMENT 2 UNKNOWNCOLUMN x~
SELECT a FROM t ORDER BY 2; => Refused OK~REFUSED E11 STATEMENT 2 UNKNOWNCOLUMN 2~
SELECT a FROM t, t AS u; => Refused OK~REFUSED E12 STATEMENT 2 AMBIGUOUS a~
SELECT a + b FROM t; => Refused OK~REFUSED E13 STATEMENT 2 TYPEMISMATCH~
SELECT a, COUNT(*) FROM t; => Refused OK~REFUSED E14 STATEMENT 2 NOTGROUPED a~
SELECT a FROM t WHERE COUNT(*) > 1; => Refused OK~REFUSED E14 STATEMENT 2 AGGREGATEPLACE~
SELECT a FROM t WHERE a IN (SELECT a FROM t AS u) OR a = 1; => Refused OK~REFUSED E15 STATEMENT 2 SUBQUERYPLACE~
SELECT a FROM t WHERE EXISTS (SELECT COUNT(*) FROM t AS u WHERE u.a = t.a); => Refused OK~REFUSED E15 STATEMENT 2 OUTERREFERENCE t.a~
SELECT t.a FROM t, t AS b, t AS c, t AS d, t AS e, t AS f, t AS g, t AS h, t AS i, t AS j, t AS k; => Refused OK~REFUSED E16 STATEMENT 2 LIMIT references 10~
";

#[test]
fn the_program_refuses_by_the_first_fault(rt: HostRuntime) -> Result<(), Fail> {
    assert_scripts(&rt, rt.alloc(), AFTER_TABLE, REFUSED)
}
