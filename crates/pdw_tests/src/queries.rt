//! SELECTs, the rows that they mean, and those that sessions answer.

use super::runs::bytes_of;
use pdw_base::Str;
use pdw_catalog::Appliance;
use pdw_engine::Session;
use pdw_meaning::plain_answer;
use pdw_outside::{HonestFiles, HonestSink};
use pdw_run::run_statements;
use pdw_show::push_rows;
use pdw_syntax::Statement;
use pdw_test_support::{session_after, statements_of};
use std::alloc::Global;
use std::process::Abort;
use std::str;
use std::test::Fail;

/// Tables, and the files that are loaded into them.
pub const TABLES: &str = "\
CREATE TABLE e (k INT, v INT) WITH (DISTRIBUTION = HASH(k));
CREATE TABLE r (a INT, b TEXT) WITH (DISTRIBUTION = REPLICATE); LOAD r FROM 'r';
CREATE TABLE l (a INT) WITH (DISTRIBUTION = HASH(a)); LOAD l FROM 'l';
CREATE TABLE m (b INT) WITH (DISTRIBUTION = HASH(b)); LOAD m FROM 'm';
CREATE TABLE f (a INT) WITH (DISTRIBUTION = HASH(a)); LOAD f FROM 'f';
CREATE TABLE g (b INT) WITH (DISTRIBUTION = HASH(b)); LOAD g FROM 'g';
CREATE TABLE p (a INT) WITH (DISTRIBUTION = HASH(a)); LOAD p FROM 'p';
CREATE TABLE q (b INT) WITH (DISTRIBUTION = HASH(b)); LOAD q FROM 'q';
CREATE TABLE h (a INT) WITH (DISTRIBUTION = HASH(a)); LOAD h FROM 'h';
CREATE TABLE s (k INT, v INT) WITH (DISTRIBUTION = HASH(k)); LOAD s FROM 's';
CREATE TABLE t (k INT, g INT) WITH (DISTRIBUTION = HASH(k)); LOAD t FROM 't';
CREATE TABLE n (a INT, b TEXT) WITH (DISTRIBUTION = HASH(a)); LOAD n FROM 'n';
CREATE TABLE w (a TEXT) WITH (DISTRIBUTION = HASH(a)); LOAD w FROM 'w';
CREATE TABLE c (x INT, y INT) WITH (DISTRIBUTION = HASH(x)); LOAD c FROM 'c';
CREATE TABLE j (a INT, b TEXT) WITH (DISTRIBUTION = REPLICATE); LOAD j FROM 'j';
CREATE TABLE z (k INT, v INT) WITH (DISTRIBUTION = HASH(k)); LOAD z FROM 'z';
CREATE TABLE d (a INT, b INT) WITH (DISTRIBUTION = HASH(a)); LOAD d FROM 'd';
CREATE TABLE one (c INT) WITH (DISTRIBUTION = REPLICATE); LOAD one FROM 'one';
CREATE TABLE two (c INT) WITH (DISTRIBUTION = REPLICATE); LOAD two FROM 'two';
CREATE TABLE three (c INT) WITH (DISTRIBUTION = REPLICATE); LOAD three FROM 'three';
CREATE TABLE sales (id INT, store INT, item INT, day INT, qty INT) WITH (DISTRIBUTION = HASH(id)); LOAD sales FROM 'sales';
CREATE TABLE stores (store_id INT, region TEXT) WITH (DISTRIBUTION = REPLICATE); LOAD stores FROM 'stores';
CREATE TABLE items (item_id INT, kind TEXT) WITH (DISTRIBUTION = HASH(item_id)); LOAD items FROM 'items';
CREATE TABLE days (day_id INT, month INT) WITH (DISTRIBUTION = REPLICATE); LOAD days FROM 'days';
CREATE TABLE promo (item INT) WITH (DISTRIBUTION = HASH(item)); LOAD promo FROM 'promo';
";

// The records of each file.
const FILES: &str = "\
r 2,x~1,\"a \"\"q\"\"\"~
l 1~2~4~
m 2~
f \\N~1~
g \\N~1~2~
p 1~2~
q 1~\\N~
h \\N~5~
s 0,9223372036854775807~1,1~2,-1~
t 1,\\N~2,5~3,\\N~4,5~
n 1,\"x,y\"\r~2,\"\"\r~3,\\N\r~
wide 4,u~5,v~6,w,z~
w ab~éb1~b~xb~
c 1,1~1,\\N~2,\\N~\\N,3~
j 4,\\N~\\N,\\N~4,\\N~
z 1,9223372036854775807~1,9223372036854775807~1,-5~2,9223372036854775807~2,7~2,-8~3,-9223372036854775808~3,-1~4,\\N~4,4~4,\\N~4,-3~5,\\N~
d 2,\\N~2,1~2,\\N~\\N,\\N~
one 1~
two 2~
three 3~
sales 1,1,10,1,5~2,1,11,1,3~3,2,10,2,4~4,2,12,2,9~5,1,10,32,2~6,3,10,1,7~7,2,11,\\N,1~
stores 1,north~2,south~3,north~
items 10,tea~11,tea~12,nuts~
days 1,1~2,1~32,2~
promo 10~11~11~
";

// A SELECT on each line, and its rows in the order of their texts.
const ROWS: &str = "\
SELECT COUNT(*) FROM e; => 0
SELECT COUNT(k), SUM(v), MIN(v), MAX(v) FROM e; => 0,NULL,NULL,NULL
SELECT k, COUNT(*) FROM e GROUP BY k; => none
SELECT * FROM r ORDER BY a; => 1,\"a \"\"q\"\"\" / 2,\"x\"
SELECT b, COUNT(*) FROM l LEFT JOIN m ON a = b GROUP BY b ORDER BY b; => 2,1 / NULL,2
SELECT a, b FROM f FULL JOIN g ON a = b ORDER BY a, b; => 1,1 / NULL,2 / NULL,NULL / NULL,NULL
SELECT a, b FROM f RIGHT JOIN g ON a = b; => 1,1 / NULL,2 / NULL,NULL
SELECT a, b FROM g LEFT JOIN f ON a = b; => 1,1 / NULL,2 / NULL,NULL
SELECT a, b FROM f JOIN g ON a = b; => 1,1
SELECT a, b FROM f, g WHERE a = b OR a IS NULL; => 1,1 / NULL,1 / NULL,2 / NULL,NULL
SELECT COUNT(*) FROM f CROSS JOIN g; => 6
SELECT f.a, x.a, b FROM f LEFT JOIN (l AS x JOIN g ON x.a = b) ON f.a = x.a; => 1,1,1 / NULL,NULL,NULL
SELECT a FROM p WHERE a NOT IN (SELECT b FROM q); => none
SELECT a FROM p WHERE a IN (SELECT b FROM q); => 1
SELECT a FROM h WHERE a NOT IN (SELECT k FROM e) ORDER BY a; => 5 / NULL
SELECT a FROM h WHERE a IN (SELECT k FROM e); => none
SELECT a FROM h WHERE a NOT IN (SELECT a FROM p); => 5
SELECT SUM(v) FROM s WHERE k < 2; => NULL
SELECT SUM(v) FROM s; => 9223372036854775807
SELECT COUNT(v), MIN(v), MAX(v) FROM s; => 3,-1,9223372036854775807
SELECT k, 1 / 0, v * 2, -7 / 2, -7 % 2 FROM s WHERE k = 0; => 0,NULL,NULL,-3,-1
SELECT v + 1, v - 1, -v, v % -1, v / -1 FROM s WHERE k = 0; => NULL,9223372036854775806,-9223372036854775807,0,-9223372036854775807
SELECT -v - 1, -(-v - 1), (-v - 1) * -1, (-v - 1) / -1, (-v - 1) % -1, -v - 2 FROM s WHERE k = 0; => -9223372036854775808,NULL,NULL,NULL,0,NULL
SELECT 7 / -2, 7 % -2, 0 % 5, 5 % 0, 2 - 3 * 4, (2 - 3) * 4 FROM s WHERE k = 0; => -3,1,0,NULL,-10,-4
SELECT g FROM t ORDER BY g; => 5 / 5 / NULL / NULL
SELECT k, g FROM t ORDER BY g DESC, k DESC; => 1,NULL / 2,5 / 3,NULL / 4,5
SELECT DISTINCT g FROM t; => 5 / NULL
SELECT d.g, d.c FROM (SELECT g, COUNT(*) AS c FROM t GROUP BY g) AS d WHERE d.c > 1 ORDER BY g; => 5,2 / NULL,2
SELECT g, SUM(k), COUNT(g) FROM t GROUP BY g HAVING SUM(k) > 4; => 5,6,2
SELECT g + 1, k + g FROM t; => 6,7 / 6,9 / NULL,NULL / NULL,NULL
SELECT k FROM t WHERE g + k IS NULL; => 1 / 3
SELECT k FROM t WHERE NOT g = 5; => none
SELECT k FROM t WHERE g = 5 IS UNKNOWN; => 1 / 3
SELECT k FROM t WHERE g = 5 IS NOT TRUE; => 1 / 3
SELECT k FROM t WHERE g = 5 OR k = 1; => 1 / 2 / 4
SELECT k FROM t WHERE NOT (g = 5 AND k = 1); => 2 / 3 / 4
SELECT k FROM t WHERE k BETWEEN 2 AND 3; => 2 / 3
SELECT k FROM t WHERE k NOT BETWEEN 2 AND g; => 1
SELECT k FROM t WHERE g IN (5, k); => 2 / 4
SELECT k FROM t WHERE g NOT IN (6, k); => 2 / 4
SELECT k FROM t WHERE k IN (1, g); => 1
SELECT k FROM t WHERE k NOT IN (1, g); => 2 / 4
SELECT a, b FROM n ORDER BY a; => 1,\"x,y\" / 2,\"\" / 3,NULL
SELECT MIN(b), MAX(b), COUNT(b), COUNT(*) FROM n; => \"\",\"x,y\",2,3
SELECT a FROM w WHERE a LIKE '_b%' ORDER BY a; => \"ab\" / \"xb\" / \"éb1\"
SELECT a FROM w WHERE a NOT LIKE '%b'; => \"éb1\"
SELECT a FROM w WHERE a LIKE '__'; => \"ab\" / \"xb\"
SELECT x, y FROM c WHERE EXISTS (SELECT * FROM l WHERE l.a = y); => 1,1
SELECT x, y FROM c WHERE NOT EXISTS (SELECT * FROM l WHERE l.a = y); => 1,NULL / 2,NULL / NULL,3
SELECT x, y FROM c WHERE x IN (SELECT a FROM l WHERE a = y); => 1,1
SELECT x, y FROM c WHERE x NOT IN (SELECT a FROM l WHERE a = y); => 1,NULL / 2,NULL / NULL,3
SELECT x, y FROM c WHERE y NOT IN (SELECT a FROM l WHERE a > x); => 1,1 / NULL,3
SELECT x, y FROM c WHERE y IN (SELECT a FROM f); => 1,1
SELECT x, y FROM c WHERE y NOT IN (SELECT a FROM f); => none
SELECT x, y FROM c WHERE y NOT IN (SELECT a FROM f WHERE a > 5); => 1,1 / 1,NULL / 2,NULL / NULL,3
SELECT x, y FROM c WHERE NOT (x IN (SELECT DISTINCT a FROM l WHERE a < 2)); => 2,NULL
SELECT x, y FROM c WHERE EXISTS (SELECT COUNT(*) FROM e); => 1,1 / 1,NULL / 2,NULL / NULL,3
SELECT x, y FROM c WHERE EXISTS (SELECT k FROM e GROUP BY k); => none
SELECT x, y FROM c WHERE EXISTS (SELECT DISTINCT * FROM e); => none
SELECT COUNT(*), SUM(d.s) FROM (SELECT x, SUM(y) AS s FROM c GROUP BY x) AS d; => 3,4
SELECT region, month, SUM(qty) AS total, COUNT(*) AS n FROM sales JOIN stores ON store = store_id JOIN items ON item = item_id JOIN days ON day = day_id WHERE qty > 1 AND EXISTS (SELECT * FROM promo WHERE promo.item = item_id) GROUP BY region, month HAVING SUM(qty) > 2 ORDER BY total DESC, region; => \"north\",1,15,3 / \"south\",1,4,1
SELECT x.a, y.a FROM j AS x LEFT JOIN j AS y ON x.a = y.a; => 4,4 / 4,4 / 4,4 / 4,4 / NULL,NULL
SELECT x.a FROM j AS x WHERE EXISTS (SELECT * FROM j AS y WHERE x.a = y.a); => 4 / 4
SELECT x.a FROM j AS x WHERE NOT EXISTS (SELECT * FROM j AS y WHERE x.a = y.a); => NULL
SELECT x.a, y.a FROM j AS x, j AS y WHERE x.a = y.a; => 4,4 / 4,4 / 4,4 / 4,4
SELECT a, COUNT(*) FROM j GROUP BY a; => 4,2 / NULL,1
SELECT k, SUM(v) FROM z WHERE k < 4 GROUP BY k; => 1,NULL / 2,9223372036854775806 / 3,NULL
SELECT COUNT(*), COUNT(v), SUM(v), MIN(v), MAX(v) FROM z WHERE k = 4; => 4,2,1,-3,4
SELECT COUNT(*), COUNT(v), SUM(v), MIN(v), MAX(v) FROM z WHERE k = 5; => 1,0,NULL,NULL,NULL
SELECT DISTINCT a, b FROM d; => 2,1 / 2,NULL / NULL,NULL
SELECT c FROM three AS a WHERE EXISTS (SELECT * FROM two AS b WHERE EXISTS (SELECT * FROM one AS a WHERE c = 1)); => 3
SELECT c FROM three AS a WHERE EXISTS (SELECT * FROM two AS b WHERE EXISTS (SELECT * FROM one AS a WHERE a.c = 1)); => 3
SELECT c FROM three AS a WHERE EXISTS (SELECT * FROM two AS b WHERE EXISTS (SELECT * FROM one AS a WHERE b.c = 2)); => 3
";

// A SELECT that the judgement refuses: what it means is defined all the same, and a name that is not there is NULL.
const MEANT: &str = "\
SELECT c FROM three AS a WHERE EXISTS (SELECT * FROM two AS b WHERE EXISTS (SELECT * FROM one AS a WHERE z.c IS NULL)); => 3
";

/// The files, each with its name.
pub fn files(alloc: Global) -> Result<Vec<(Str, Vec<u8>)>, Fail> {
    let mut files = Vec::new(alloc);
    for line in FILES.lines() {
        let (name, records) = line.split_once(' ').ok_or("a name")?;
        files.push((Str::from_text(alloc, name)?, bytes_of(alloc, records)?))?;
    }
    Ok(files)
}

/// A session over so many nodes with the tables and their rows.
pub fn session_over(alloc: Global, nodes: u32) -> Result<Session, Fail> {
    let mut files = HonestFiles::new(files(alloc)?);
    session_after(alloc, nodes, TABLES, &mut files)
}

// Lines in the order of their texts.
fn shown(alloc: Global, text: &str) -> Result<String, Fail> {
    let mut lines = Vec::new(alloc);
    for line in text.lines() {
        lines.push(line)?;
    }
    if lines.is_empty() {
        lines.push("none")?;
    }
    lines.sort_unstable();
    Ok(lines.as_slice().join(alloc, " / ")?)
}

/// The rows that a SELECT means, in the order of their texts.
pub fn meant(alloc: Global, appliance: &Appliance, query: &str) -> Result<String, Fail> {
    let statements = statements_of(alloc, query)?;
    let [Statement::Select(select)] = statements.as_slice() else {
        return Err("no query")?;
    };
    let rows = plain_answer(alloc, appliance, select)?;
    let mut text = Vec::new(alloc);
    push_rows(&mut text, rows.rows())?;
    shown(alloc, str::from_utf8(text.as_slice())?)
}

// The rows that a session answers, in the order of their texts: what it prints between the names and the count.
fn answered(alloc: Global, session: &mut Session, query: &str) -> Result<String, Fail> {
    let statements = statements_of(alloc, query)?;
    let mut files = HonestFiles::new(Vec::new(alloc));
    let mut out = HonestSink::new(alloc, 1_000)?;
    let _status = run_statements(alloc, session, statements.as_slice(), &mut files, &mut out);
    let text = str::from_utf8(out.written())?;
    let (_names, rows) = text.split_once('\n').ok_or("names")?;
    let (rows, _count) = rows.split_once("ROWS ").ok_or("a count")?;
    shown(alloc, rows)
}

#[test]
fn queries_mean_their_rows(rt: HostRuntime) -> Result<(), Fail> {
    let session = session_over(rt.alloc(), 3)?;
    for line in ROWS.lines().chain(MEANT.lines()) {
        let (query, wanted) = line.split_once(" => ").ok_or("an arrow")?;
        let found = meant(rt.alloc(), session.appliance(), query)?;
        assert_eq!(rt; found.as_str(), wanted, "{query}");
    }
    Ok(())
}

// A session over so many nodes answers the rows.
fn assert_answers(rt: &impl Abort, alloc: Global, nodes: u32) -> Result<(), Fail> {
    let mut session = session_over(alloc, nodes)?;
    for line in ROWS.lines() {
        let (query, wanted) = line.split_once(" => ").ok_or("an arrow")?;
        let found = answered(alloc, &mut session, query)?;
        assert_eq!(rt; found.as_str(), wanted, "{nodes}: {query}");
    }
    Ok(())
}

#[test]
fn sessions_answer_the_rows(rt: HostRuntime) -> Result<(), Fail> {
    for nodes in [1, 2, 3, 16] {
        assert_answers(&rt, rt.alloc(), nodes)?;
    }
    Ok(())
}
