//! Statements and their judgements.

use super::numbered;
use super::sessions::session_of;
use pdw_catalog::Catalog;
use pdw_form::Judged;
use pdw_scope::judge;
use pdw_syntax::Statement;
use pdw_test_support::{expanded, statements_of};
use pdw_walk::JudgeFault;
use std::alloc::{AllocError, Global};
use std::process::Abort;
use std::test::Fail;

// The tables that the statements are about.
const TABLES: &str = "\
CREATE TABLE t (a INT, b TEXT) WITH (DISTRIBUTION = HASH(a));
CREATE TABLE r (a INT, c INT) WITH (DISTRIBUTION = REPLICATE);
CREATE TABLE v (k INT, x INT, d TEXT) WITH (DISTRIBUTION = HASH(k));
";

// A statement and its first fault on each line.
const FAULTS: &str = "\
CREATE TABLE t (c INT) WITH (DISTRIBUTION = REPLICATE); => TABLEEXISTS t
CREATE TABLE t (c INT, c INT) WITH (DISTRIBUTION = HASH(d)); => TABLEEXISTS t
CREATE TABLE u (c INT, d INT, C TEXT) WITH (DISTRIBUTION = HASH(e)); => DUPLICATENAME c
CREATE TABLE u (c INT) WITH (DISTRIBUTION = HASH(e)); => UNKNOWNCOLUMN e
DROP TABLE u; => UNKNOWNTABLE u
LOAD u FROM 'f'; => UNKNOWNTABLE u
UPDATE STATISTICS u; => UNKNOWNTABLE u
UPDATE STATISTICS u WITH ROWS 1000000000001; => UNKNOWNTABLE u
UPDATE STATISTICS t WITH ROWS 1000000000001, z DISTINCT 1 WIDTH 1; => BADSETTING rows 1000000000001
UPDATE STATISTICS t WITH ROWS 1000000000000, z DISTINCT 0 WIDTH 0; => UNKNOWNCOLUMN z
UPDATE STATISTICS t WITH ROWS 0, a DISTINCT 1 WIDTH 1, a DISTINCT 0 WIDTH 0; => DUPLICATENAME a
UPDATE STATISTICS t WITH ROWS 0, a DISTINCT 0 WIDTH 0, z DISTINCT 1 WIDTH 1; => BADSETTING distinct 0
UPDATE STATISTICS t WITH ROWS 0, a DISTINCT 1000000000001 WIDTH 0; => BADSETTING distinct 1000000000001
UPDATE STATISTICS t WITH ROWS 0, a DISTINCT 1 WIDTH 0; => BADSETTING width 0
UPDATE STATISTICS t WITH ROWS 0, a DISTINCT 1 WIDTH 1001; => BADSETTING width 1001
SET BUDGET 0; => BADSETTING budget 0
SET BUDGET 100001; => BADSETTING budget 100001
SET COST READER 0; => BADSETTING reader 0
SET COST HASHREADER 1001; => BADSETTING hashreader 1001
SET COST NETWORK 0; => BADSETTING network 0
SET COST WRITER 0; => BADSETTING writer 0
SET COST BULK 0; => BADSETTING bulk 0
SET COST CONTROL 1001; => BADSETTING control 1001
SELECT a FROM t, t; => DUPLICATENAME t
SELECT a FROM t, r AS t; => DUPLICATENAME t
SELECT a FROM t, nosuch AS t; => UNKNOWNTABLE nosuch
SELECT x FROM t; => UNKNOWNCOLUMN x
SELECT u.a FROM t; => UNKNOWNCOLUMN u.a
SELECT t.a FROM t AS u; => UNKNOWNCOLUMN t.a
SELECT u.* FROM t; => UNKNOWNCOLUMN u.*
SELECT a FROM t, t AS u; => AMBIGUOUS a
SELECT t.a, a FROM t, r; => AMBIGUOUS a
SELECT a + b FROM t; => TYPEMISMATCH
SELECT a + b + z FROM t; => UNKNOWNCOLUMN z
SELECT -b FROM t; => TYPEMISMATCH
SELECT +b FROM t; => TYPEMISMATCH
SELECT SUM(b) FROM t; => TYPEMISMATCH
SELECT a FROM t WHERE a = b; => TYPEMISMATCH
SELECT a FROM t WHERE a = b OR z = 1; => TYPEMISMATCH
SELECT a FROM t WHERE z = b; => UNKNOWNCOLUMN z
SELECT a FROM t WHERE a LIKE b; => TYPEMISMATCH
SELECT a FROM t WHERE b LIKE a; => TYPEMISMATCH
SELECT a FROM t WHERE a BETWEEN 1 AND b; => TYPEMISMATCH
SELECT a FROM t WHERE a BETWEEN b AND z; => UNKNOWNCOLUMN z
SELECT a FROM t WHERE a IN (1, b); => TYPEMISMATCH
SELECT a FROM t WHERE a IN (b, z); => UNKNOWNCOLUMN z
SELECT a, COUNT(*) FROM t; => NOTGROUPED a
SELECT COUNT(*), t.a FROM t; => NOTGROUPED t.a
SELECT * FROM t GROUP BY a; => NOTGROUPED b
SELECT u.* FROM t AS u GROUP BY a; => NOTGROUPED u.b
SELECT a FROM t HAVING 1 = 1; => NOTGROUPED a
SELECT a FROM t GROUP BY a HAVING b = 'x'; => NOTGROUPED b
SELECT a FROM t GROUP BY a HAVING z = 'x'; => UNKNOWNCOLUMN z
SELECT COUNT(*) FROM t GROUP BY z; => UNKNOWNCOLUMN z
SELECT a FROM t WHERE COUNT(*) > 1; => AGGREGATEPLACE
SELECT a FROM t WHERE SUM(z) > 1; => AGGREGATEPLACE
SELECT SUM(COUNT(*)) FROM t; => AGGREGATEPLACE
SELECT a FROM t JOIN r ON COUNT(*) = 1; => AGGREGATEPLACE
SELECT t.a FROM t JOIN r ON c = k, v; => UNKNOWNCOLUMN k
SELECT t.a FROM v, t JOIN r ON c = k; => UNKNOWNCOLUMN k
SELECT t.a FROM t JOIN r ON t.a = v.k JOIN v ON 1 = 1; => UNKNOWNCOLUMN v.k
SELECT t.a FROM t JOIN r ON a = 1; => AMBIGUOUS a
SELECT a FROM t WHERE a IN (SELECT a FROM t AS u) OR a = 1; => SUBQUERYPLACE
SELECT a FROM t WHERE NOT (NOT EXISTS (SELECT * FROM r)); => SUBQUERYPLACE
SELECT a FROM t WHERE NOT a NOT IN (SELECT c FROM r); => SUBQUERYPLACE
SELECT a FROM t WHERE EXISTS (SELECT * FROM r) IS TRUE; => SUBQUERYPLACE
SELECT a FROM t WHERE z = 1 OR EXISTS (SELECT * FROM r); => UNKNOWNCOLUMN z
SELECT a FROM t GROUP BY a HAVING EXISTS (SELECT * FROM r); => SUBQUERYPLACE
SELECT t.a FROM t JOIN r ON EXISTS (SELECT * FROM v); => SUBQUERYPLACE
SELECT a FROM t WHERE EXISTS (SELECT COUNT(*) FROM t AS u WHERE u.a = t.a); => OUTERREFERENCE t.a
SELECT a FROM t WHERE EXISTS (SELECT b FROM r); => OUTERREFERENCE b
SELECT a FROM t WHERE EXISTS (SELECT c FROM r JOIN v ON b = d); => OUTERREFERENCE b
SELECT a FROM t WHERE EXISTS (SELECT c FROM r WHERE EXISTS (SELECT x FROM v WHERE d = b)); => OUTERREFERENCE b
SELECT a FROM t WHERE EXISTS (SELECT c FROM r WHERE b IN (SELECT d FROM v)); => OUTERREFERENCE b
SELECT a FROM t WHERE EXISTS (SELECT c FROM r WHERE b = 'x' OR EXISTS (SELECT * FROM v)); => OUTERREFERENCE b
SELECT a FROM t WHERE EXISTS (SELECT c FROM (SELECT c FROM r WHERE b = 'x') AS e); => OUTERREFERENCE b
SELECT u.a FROM t AS u, r AS w WHERE EXISTS (SELECT x FROM v WHERE a = x); => AMBIGUOUS a
SELECT a FROM t WHERE a IN (SELECT a, c FROM r); => TYPEMISMATCH
SELECT a FROM t WHERE a IN (SELECT d FROM v); => TYPEMISMATCH
SELECT a FROM t WHERE z IN (SELECT y FROM v); => UNKNOWNCOLUMN z
SELECT e.a FROM (SELECT a, a FROM t) AS e; => DUPLICATENAME a
SELECT e.a FROM (SELECT a, 1 AS a FROM t) AS e, r AS e; => DUPLICATENAME a
SELECT e.a FROM (SELECT a FROM t) AS e, r AS e; => DUPLICATENAME e
SELECT a FROM t ORDER BY z; => UNKNOWNCOLUMN z
SELECT a AS x FROM t ORDER BY a; => UNKNOWNCOLUMN a
SELECT a FROM t ORDER BY 2; => UNKNOWNCOLUMN 2
SELECT a FROM t ORDER BY 0; => UNKNOWNCOLUMN 0
SELECT a, b AS a FROM t ORDER BY a; => AMBIGUOUS a
SELECT z FROM t ORDER BY y; => UNKNOWNCOLUMN z
SELECT t.a FROM t, t AS b, t AS c, t AS d, t AS e, t AS f, t AS g, t AS h, t AS i, t AS j, t AS k; => LIMIT references 10
SELECT t.a FROM t, t AS b, t AS c, t AS d, t AS e, t AS f, t AS g, t AS h, t AS i, t AS j, t; => LIMIT references 10
SELECT z.a FROM t, t AS b, t AS c, t AS d, t AS e, t AS f, t AS g, t AS h, t AS i, t AS j; => UNKNOWNCOLUMN z.a
SELECT z1 FROM nosuch WHERE z2 = 1 GROUP BY z3 HAVING z4 = 1 ORDER BY z5; => UNKNOWNTABLE nosuch
SELECT z1 FROM t WHERE z2 = 1 GROUP BY z3 HAVING z4 = 1 ORDER BY z5; => UNKNOWNCOLUMN z2
SELECT z1 FROM t GROUP BY z3 HAVING z4 = 1 ORDER BY z5; => UNKNOWNCOLUMN z3
SELECT z1 FROM t GROUP BY a HAVING z4 = 1 ORDER BY z5; => UNKNOWNCOLUMN z4
SELECT z1 FROM t GROUP BY a ORDER BY z5; => UNKNOWNCOLUMN z1
SELECT a FROM t GROUP BY a ORDER BY z5; => UNKNOWNCOLUMN z5
EXPLAIN SELECT z FROM t; => UNKNOWNCOLUMN z
EXPLAIN JSON SELECT z FROM t; => UNKNOWNCOLUMN z
PROFILE SELECT z FROM t; => UNKNOWNCOLUMN z
CHECK PLAN 'p' FOR SELECT z FROM t; => UNKNOWNCOLUMN z
";

// A statement and what it does on each line.
const FORMS: &str = "\
CREATE TABLE u (c INT, d TEXT) WITH (DISTRIBUTION = HASH(d)); => create u 1
CREATE TABLE u (c INT) WITH (DISTRIBUTION = REPLICATE); => create u
DROP TABLE t; => drop t
LOAD t FROM 'f'; => load t f
UPDATE STATISTICS t; => measure t
UPDATE STATISTICS t WITH ROWS 1000000000000, b DISTINCT 1000000000000 WIDTH 1000, a DISTINCT 1 WIDTH 1; => hand t 1000000000000 1:1000000000000:1000 0:1:1
SET BUDGET 100000; => budget 100000
SET COST HASHREADER 1000; => cost hashreader 1000
SELECT b, a FROM t WHERE a = 1; => <t t( 0:0 1:1) plain #0 = 1 items b#1 a#0>
SELECT * FROM t AS u; => <t u( 0:0 1:1) items a#0 b#1>
SELECT c, t.* FROM t, r; => <t t( 1:0 2:1)r r( 0:1) items c#0 a#1 b#2>
SELECT (a), +a, a AS x, -a, 'y' FROM t; => <t t( 0:0) items a#0 col2#1=#0 x#0 col4#2=-#0 col5#3=y>
SELECT 1 FROM t; => <t t() items col1#0=1>
SELECT a + c * 2 - 1 AS s FROM (SELECT a, c FROM r) AS e ORDER BY s DESC, 1; => <<r r( 0:0 1:1) items a#0 c#1> items s#2=[#0 + [#1 * 2] - 1]> 0- 0+
SELECT t.a FROM t JOIN r ON t.a = r.a AND c > 1; => <(t t( 0:0) inner r r( 1:0 2:1) on #0 = #1 #2 > 1) items a#0>
SELECT k FROM t RIGHT JOIN (r CROSS JOIN v) ON t.a = k; => <(t t( 0:0) right (r r() cross v v( 1:0)) on #0 = #1) items k#1>
SELECT a FROM t WHERE (a = 1 AND (b = 'x' AND NOT a = 2)) AND (a = 3 OR a = 4); => <t t( 0:0 1:1) plain #0 = 1 #1 = x not #0 = 2 any{ #0 = 3 #0 = 4} items a#0>
SELECT a FROM t WHERE a BETWEEN 1 AND 2 AND a NOT IN (3) AND b NOT LIKE 'x'; => <t t( 0:0 1:1) plain all{ #0 >= 1 #0 <= 2} not any{ #0 = 3} not #1 like x items a#0>
SELECT a FROM t WHERE a IS NOT NULL AND (a = 1 IS NOT UNKNOWN); => <t t( 0:0) plain not #0 is null not #0 = 1 is unknown items a#0>
SELECT b, COUNT(*), SUM(a) + 1, MAX(b) AS m FROM t GROUP BY b; => <t t( 0:1 2:0) group #0 countstar()#1 sum(#2)#3 max(#0)#5 items b#0 col2#1 col3#4=[#3 + 1] m#5>
SELECT COUNT(a) FROM t HAVING MIN(a) > 1 AND COUNT(a) < 5; => <t t( 0:0) group min(#0)#1 count(#0)#2 count(#0)#3 having #1 > 1 #2 < 5 items col1#3>
SELECT b, b AS c FROM t GROUP BY b, b, t.b; => <t t( 0:1) group #0 #0 #0 items b#0 c#0>
SELECT DISTINCT d.y FROM (SELECT a AS x, a AS y FROM t) AS d GROUP BY d.x; => <<t t( 0:0) items x#0 y#0> group #0 distinct y#0>
SELECT a FROM t WHERE NOT EXISTS (SELECT * FROM r WHERE r.a = t.a AND c = 1); => <t t( 1:0) not exists <r r( 0:0 2:1) plain #2 = 1 outer #0 = #1 items> items a#1>
SELECT a FROM t WHERE (a NOT IN (SELECT c FROM r WHERE b = 'x')) AND a > 0; => <t t( 0:0 1:1) plain #0 > 0 not in #0<r r( 2:1) outer #1 = x items c#2> items a#0>
SELECT a FROM t WHERE NOT (a IN (SELECT DISTINCT a FROM r)); => <t t( 0:0) not in #0<r r( 1:0) distinct a#1> items a#0>
SELECT a FROM t WHERE EXISTS (SELECT r.* FROM r); => <t t( 2:0) exists <r r( 0:0 1:1) items a#0 c#1> items a#2>
";

// The same of statements at the limits of a SELECT. A key that is not there is found where all else is right.
const LIMITS: &str = "\
SELECT a + 1{126:, a + 1}, a FROM t ORDER BY z; => UNKNOWNCOLUMN z
SELECT a + 1{127:, a + 1} FROM t ORDER BY z; => LIMIT used 128
SELECT a + 1{126:, a + 1}, a, a FROM t ORDER BY z; => LIMIT items 128
SELECT a + 1{127:, a} FROM t ORDER BY z; => UNKNOWNCOLUMN z
SELECT a + 1{128:, a} FROM t ORDER BY z; => LIMIT items 128
SELECT 1 FROM {21:(SELECT a FROM }t){20: AS w)} AS x, {21:(SELECT a FROM }t){20: AS w)} AS y, {21:(SELECT a FROM }t){20: AS w)} AS z ORDER BY z; => UNKNOWNCOLUMN z
SELECT 1 FROM {22:(SELECT a FROM }t){21: AS w)} AS x, {22:(SELECT a FROM }t){21: AS w)} AS y, {22:(SELECT a FROM }t){21: AS w)} AS z ORDER BY z; => LIMIT queries 64
";

// One table less than there may be, and as many as there may be.
const FEWER_TABLES: &str = "{63:CREATE TABLE t# (a INT) WITH (DISTRIBUTION = REPLICATE);}";

const MOST_TABLES: &str = "{64:CREATE TABLE t# (a INT) WITH (DISTRIBUTION = REPLICATE);}";

const AFTER_FEWER_TABLES: &str = "\
CREATE TABLE u ({31:c# INT, }z INT) WITH (DISTRIBUTION = REPLICATE); => create u
CREATE TABLE u ({32:c# INT, }z INT) WITH (DISTRIBUTION = REPLICATE); => LIMIT columns 32
";

const AFTER_MOST_TABLES: &str = "\
CREATE TABLE u ({31:c# INT, }z INT) WITH (DISTRIBUTION = REPLICATE); => LIMIT tables 64
CREATE TABLE u ({32:c# INT, }z INT) WITH (DISTRIBUTION = REPLICATE); => LIMIT columns 32
";

// Conjuncts of WHERE over t and r, each with its fault.
const FAULTY_CONJUNCTS: &str = "\
z = 1 => UNKNOWNCOLUMN z
a = 1 => AMBIGUOUS a
t.a = b => TYPEMISMATCH
COUNT(*) = 1 => AGGREGATEPLACE
(EXISTS (SELECT * FROM v) OR c = 1) => SUBQUERYPLACE
EXISTS (SELECT b FROM v) => OUTERREFERENCE b
EXISTS (SELECT x FROM v AS w, v AS w) => DUPLICATENAME w
EXISTS (SELECT x FROM nosuch) => UNKNOWNTABLE nosuch
EXISTS (SELECT x FROM v GROUP BY k) => NOTGROUPED x
c IN (SELECT d FROM v AS w) => TYPEMISMATCH
";

// Items over t and r, which are grouped by c, each with its fault.
const FAULTY_ITEMS: &str = "\
z => UNKNOWNCOLUMN z
a => AMBIGUOUS a
-SUM(b) => TYPEMISMATCH
t.a => NOTGROUPED t.a
SUM(COUNT(*)) => AGGREGATEPLACE
u.* => UNKNOWNCOLUMN u.*
";

// What a statement does, or its first fault.
fn shown(alloc: Global, judgement: &Result<Judged, JudgeFault>) -> Result<String, AllocError> {
    let mut text = String::new(alloc);
    match judgement {
        Ok(judged) => numbered::statement(&mut text, judged)?,
        Err(fault) => numbered::fault(&mut text, fault)?,
    }
    Ok(text)
}

// The judgement of a statement. It is let go where nothing else is held, which is cheap to prove.
fn judged_as(
    alloc: Global,
    catalog: &Catalog,
    statement: &Statement,
) -> Result<String, AllocError> {
    shown(alloc, &judge(alloc, catalog, statement))
}

// The same of a script of one statement.
fn judged(alloc: Global, catalog: &Catalog, script: &str) -> Result<String, Fail> {
    let statements = statements_of(alloc, script)?;
    match statements.as_slice() {
        [statement] => Ok(judged_as(alloc, catalog, statement)?),
        _ => Err("not one statement")?,
    }
}

fn assert_judged(
    rt: &impl Abort,
    alloc: Global,
    catalog: &Catalog,
    script: &str,
    wanted: &str,
) -> Result<(), Fail> {
    let found = judged(alloc, catalog, script)?;
    assert_eq!(rt; found.as_str(), wanted, "{script}");
    Ok(())
}

// A statement is judged as its line says.
fn assert_case(rt: &impl Abort, alloc: Global, catalog: &Catalog, line: &str) -> Result<(), Fail> {
    let (case, wanted) = line.split_once(" => ").ok_or("an arrow")?;
    let script = expanded(alloc, case)?;
    assert_judged(rt, alloc, catalog, script.as_str(), wanted)
}

// That holds of each line, over these tables.
fn assert_cases(rt: &impl Abort, alloc: Global, tables: &str, cases: &str) -> Result<(), Fail> {
    let session = session_of(alloc, tables)?;
    let catalog = session.appliance().catalog();
    for line in cases.lines() {
        assert_case(rt, alloc, catalog, line)?;
    }
    Ok(())
}

#[test]
fn statements_have_their_faults(rt: HostRuntime) -> Result<(), Fail> {
    assert_cases(&rt, rt.alloc(), TABLES, FAULTS)
}

#[test]
fn statements_have_their_forms(rt: HostRuntime) -> Result<(), Fail> {
    assert_cases(&rt, rt.alloc(), TABLES, FORMS)
}

#[test]
fn selects_keep_their_limits(rt: HostRuntime) -> Result<(), Fail> {
    assert_cases(&rt, rt.alloc(), TABLES, LIMITS)
}

#[test]
fn tables_keep_their_limits(rt: HostRuntime) -> Result<(), Fail> {
    assert_cases(&rt, rt.alloc(), FEWER_TABLES, AFTER_FEWER_TABLES)?;
    assert_cases(&rt, rt.alloc(), MOST_TABLES, AFTER_MOST_TABLES)
}

// What stands around two parts of a statement.
#[derive(Clone, Copy)]
struct Frame<'a> {
    head: &'a str,
    between: &'a str,
    tail: &'a str,
}

// Of two faulty parts the first counts.
fn assert_first<'a>(
    rt: &impl Abort,
    alloc: Global,
    catalog: &Catalog,
    frame: Frame<'a>,
    first: &'a str,
    second: &'a str,
) -> Result<(), Fail> {
    let (faulty, wanted) = first.split_once(" => ").ok_or("an arrow")?;
    let (other, _) = second.split_once(" => ").ok_or("an arrow")?;
    let script = [frame.head, faulty, frame.between, other, frame.tail].concat(alloc)?;
    assert_judged(rt, alloc, catalog, script.as_str(), wanted)
}

// That holds of all pairs, in both orders.
fn assert_pairs<'a>(
    rt: &impl Abort,
    alloc: Global,
    frame: Frame<'a>,
    parts: &'a str,
) -> Result<(), Fail> {
    let session = session_of(alloc, TABLES)?;
    let catalog = session.appliance().catalog();
    for first in parts.lines() {
        for second in parts.lines() {
            assert_first(rt, alloc, catalog, frame, first, second)?;
        }
    }
    Ok(())
}

#[test]
fn the_first_of_two_faulty_conjuncts_counts(rt: HostRuntime) -> Result<(), Fail> {
    let frame = Frame {
        head: "SELECT c FROM t, r WHERE ",
        between: " AND ",
        tail: ";",
    };
    assert_pairs(&rt, rt.alloc(), frame, FAULTY_CONJUNCTS)
}

#[test]
fn the_first_of_two_faulty_items_counts(rt: HostRuntime) -> Result<(), Fail> {
    let frame = Frame {
        head: "SELECT ",
        between: ", ",
        tail: " FROM t, r GROUP BY c;",
    };
    assert_pairs(&rt, rt.alloc(), frame, FAULTY_ITEMS)
}
