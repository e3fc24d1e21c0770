//! Scripts with their trees.

/// A statement and its tree on each line.
pub const STATEMENTS: &str = "\
CREATE TABLE t ( a INT ) WITH ( DISTRIBUTION = REPLICATE ); => create t (a int) replicate;
create table T(a int not null,b text,c TEXT NOT NULL)with(distribution=hash(B)); => create t (a int not null) (b text) (c text not null) hash b;
CREATE TABLE hash (int INT, text TEXT) WITH (DISTRIBUTION = HASH (replicate)); => create hash (int int) (text text) hash replicate;
DROP TABLE t; => drop t;
LOAD load FROM 'it''s'; => load load 'it's';
UPDATE STATISTICS t; => measure t;
UPDATE STATISTICS t WITH ROWS 5; => hand t 5;
UPDATE STATISTICS t WITH ROWS 0, a DISTINCT 1 WIDTH 2, width DISTINCT 3 WIDTH 4; => hand t 0 (a 1 2) (width 3 4);
SET BUDGET 9223372036854775807; => budget 9223372036854775807;
SET COST READER 1; => cost Reader 1;
SET COST HASHREADER 2; => cost HashReader 2;
SET COST NETWORK 3; => cost Network 3;
SET COST WRITER 4; => cost Writer 4;
SET COST BULK 5; => cost Bulk 5;
SET COST CONTROL 0; => cost Control 0;
EXPLAIN SELECT a FROM t; => explain <all a from [t]>;
EXPLAIN JSON SELECT a FROM t ORDER BY 1; => json <all a from [t]> order 1;
PROFILE SELECT a FROM t ORDER BY a DESC; => profile <all a from [t]> order a desc;
CHECK PLAN 'p' FOR SELECT a FROM t ORDER BY a ASC, 2 DESC, b; => check 'p' <all a from [t]> order a order 2 desc order b;
SELECT * FROM t; => <all * from [t]>;
SELECT ALL a FROM t; => <all a from [t]>;
SELECT DISTINCT * FROM t, u; => <distinct * from [t] [u]>;
select a b from t u; => <all a as b from [t as u]>;
SELECT a AS b, t.*, t.a c, u.b FROM t AS v, u; => <all a as b t.* t.a as c u.b from [t as v] [u]>;
SELECT a FROM t WHERE a = 1 GROUP BY a, t.b HAVING COUNT(*) > 1 ORDER BY a; => <all a from [t] where {a = 1} by a by t.b having {countstar() > 1}> order a;
SELECT a FROM t HAVING a = 1; => <all a from [t] having {a = 1}>;
SELECT a FROM t GROUP BY a; => <all a from [t] by a>;
SELECT 1 FROM t; => <all 1 from [t]>;
SELECT 'x' y FROM t; => <all 'x' as y from [t]>;
SELECT a + b - c FROM t; => <all [a + b - c] from [t]>;
SELECT a * b / c % d FROM t; => <all [a * b / c % d] from [t]>;
SELECT a + b * c - d / e FROM t; => <all [a + [b * c] - [d / e]] from [t]>;
SELECT a * b + c FROM t; => <all [[a * b] + c] from [t]>;
SELECT - a, + 1 FROM t; => <all -a +1 from [t]>;
SELECT a - - b * + c FROM t; => <all [a - [-b * +c]] from [t]>;
SELECT -(a + b) * c FROM t; => <all [-([a + b]) * c] from [t]>;
SELECT ((a)) FROM t; => <all ((a)) from [t]>;
SELECT (a + b) * c n FROM t; => <all [([a + b]) * c] as n from [t]>;
SELECT COUNT(*), COUNT(a), SUM(a + 1), MIN(t.a), MAX(-a) FROM t; => <all countstar() count(a) sum([a + 1]) min(t.a) max(-a) from [t]>;
SELECT COUNT(*) + 1 FROM t; => <all [countstar() + 1] from [t]>;
SELECT COUNT((a)) n FROM t; => <all count((a)) as n from [t]>;
SELECT t.a + u.b * 2 AS s FROM t; => <all [t.a + [u.b * 2]] as s from [t]>;
SELECT * FROM t JOIN u ON t.a = u.a; => <all * from [t inner u on {t.a = u.a}]>;
SELECT * FROM t INNER JOIN u v ON a = b CROSS JOIN w; => <all * from [t inner u as v on {a = b} cross w]>;
SELECT * FROM t LEFT JOIN u ON a = b LEFT OUTER JOIN v ON c = d; => <all * from [t left u on {a = b} left v on {c = d}]>;
SELECT * FROM t RIGHT JOIN u ON a = b RIGHT OUTER JOIN v AS w ON c = d; => <all * from [t right u on {a = b} right v as w on {c = d}]>;
SELECT * FROM t x FULL JOIN u ON a = b FULL OUTER JOIN v ON c = d, w; => <all * from [t as x full u on {a = b} full v on {c = d}] [w]>;
SELECT * FROM t JOIN u ON a = b AND c = d OR e = f CROSS JOIN v; => <all * from [t inner u on {or {and {a = b} {c = d}} {e = f}} cross v]>;
SELECT * FROM (t); => <all * from [(t)]>;
SELECT * FROM (t CROSS JOIN u) JOIN v ON a = b; => <all * from [(t cross u) inner v on {a = b}]>;
SELECT * FROM t CROSS JOIN (u CROSS JOIN ((v))); => <all * from [t cross (u cross ((v)))]>;
SELECT * FROM (SELECT a FROM t) AS u; => <all * from [<all a from [t]> as u]>;
SELECT * FROM (SELECT a FROM t) u CROSS JOIN v, w; => <all * from [<all a from [t]> as u cross v] [w]>;
SELECT * FROM t, (SELECT DISTINCT a FROM t WHERE a = 1) u JOIN ((SELECT * FROM v) w) ON a = b; => <all * from [t] [<distinct a from [t] where {a = 1}> as u inner (<all * from [v]> as w) on {a = b}]>;
SELECT a FROM (SELECT a FROM t GROUP BY a HAVING SUM(b) < 1) u ORDER BY a; => <all a from [<all a from [t] by a having {sum(b) < 1}> as u]> order a;
SELECT explain, load.json FROM check WHERE plan = rows; => <all explain load.json from [check] where {plan = rows}>;
SELECT DISTINCT a FROM t JOIN u ON NOT (a = b); => <distinct a from [t inner u on {not ({a = b})}]>;
SELECT a FROM t AS u WHERE a = b ORDER BY 1, 2 ASC; => <all a from [t as u] where {a = b}> order 1 order 2;";

/// A condition and its tree on each line.
pub const CONDITIONS: &str = "\
a = 1 => {a = 1}
a<>1 => {a <> 1}
a < b => {a < b}
a <= b => {a <= b}
a > b => {a > b}
a >= b => {a >= b}
a + 1 = b * 2 => {[a + 1] = [b * 2]}
- ( a ) = 1 => {-(a) = 1}
COUNT ( * ) = 1 => {countstar() = 1}
a LIKE 'x' => {a like 'x'}
a NOT LIKE b => {a not like b}
a IS NULL => {a is null}
a IS NOT NULL => {a is not null}
a BETWEEN 1 AND 2 => {a between 1 and 2}
a NOT BETWEEN b + 1 AND -c AND d = 1 => {and {a not between [b + 1] and -c} {d = 1}}
a IN (1) => {a in 1}
a IN (1, b, (c)) => {a in 1 b (c)}
a NOT IN ('x', -1) => {a not in 'x' -1}
a IN (SELECT a FROM t) => {a in <all a from [t]>}
a NOT IN (SELECT * FROM t WHERE b = 1) => {a not in <all * from [t] where {b = 1}>}
EXISTS (SELECT * FROM t) => {exists <all * from [t]>}
NOT EXISTS (SELECT * FROM t) => {not {exists <all * from [t]>}}
EXISTS (SELECT * FROM t) IS TRUE => {{exists <all * from [t]>} is true}
NOT a = 1 => {not {a = 1}}
NOT a = 1 AND b = 2 => {and {not {a = 1}} {b = 2}}
a = 1 AND NOT b = 2 OR NOT c = 3 => {or {and {a = 1} {not {b = 2}}} {not {c = 3}}}
a = 1 OR b = 2 AND c = 3 => {or {a = 1} {and {b = 2} {c = 3}}}
a = 1 AND b = 2 AND c = 3 OR d = 4 OR e = 5 => {or {and {a = 1} {b = 2} {c = 3}} {d = 4} {e = 5}}
a = 1 IS TRUE => {{a = 1} is true}
a = 1 IS NOT FALSE => {{a = 1} is not false}
a IS NULL IS UNKNOWN => {{a is null} is unknown}
NOT a = 1 IS TRUE => {not {{a = 1} is true}}
a IN (1) IS NOT UNKNOWN => {{a in 1} is not unknown}
a = 1 IS TRUE AND b LIKE c IS FALSE => {and {{a = 1} is true} {{b like c} is false}}
( a ) = 1 => {(a) = 1}
( a = 1 ) => ({a = 1})
( ( a ) + 1 ) * 2 > b => {[([(a) + 1]) * 2] > b}
( a = 1 ) IS TRUE => {({a = 1}) is true}
( a ) IS NULL => {(a) is null}
( a ) IS NOT NULL IS NOT TRUE => {{(a) is not null} is not true}
NOT ( NOT a = 1 ) => {not ({not {a = 1}})}
NOT ( a ) = 1 => {not {(a) = 1}}
( a = 1 OR b = 2 ) AND c = 3 => {and ({or {a = 1} {b = 2}}) {c = 3}}
( ( a ) = 1 ) AND ( ( b ) ) = 2 => {and ({(a) = 1}) {((b)) = 2}}
( ( a ) = 1 AND b = 2 ) => ({and {(a) = 1} {b = 2}})
( ( a = 1 ) IS TRUE ) => ({({a = 1}) is true})
( ( a = 1 ) AND b = 2 OR c = 3 ) => ({or {and ({a = 1}) {b = 2}} {c = 3}})
( a + 1 ) - 2 * 3 BETWEEN ( 1 ) AND ( 2 ) => {[([a + 1]) - [2 * 3]] between (1) and (2)}
( a ) IN ( ( 1 ) , 2 ) => {(a) in (1) 2}
( a ) NOT LIKE ( b ) => {(a) not like (b)}
( a LIKE b ) => ({a like b})
( a IN ( 1 ) IS TRUE ) => ({{a in 1} is true})
( EXISTS ( SELECT * FROM t ) ) => ({exists <all * from [t]>})
( ( ( a = 1 ) ) ) => ((({a = 1})))
( ( ( a ) ) ) = 1 => {(((a))) = 1}
( ( ( a ) ) = 1 ) => ({((a)) = 1})
( ( ( a ) = 1 ) ) => (({(a) = 1}))
a = ( b ) => {a = (b)}
a = ( b ) AND ( c = d ) => {and {a = (b)} ({c = d})}
( NOT a = 1 AND b = 2 ) OR c = 3 => {or ({and {not {a = 1}} {b = 2}}) {c = 3}}
a = 1 AND (b = 1 OR c = 1) IS NOT TRUE => {and {a = 1} {({or {b = 1} {c = 1}}) is not true}}
( a ) * 2 IS NULL => {[(a) * 2] is null}
( a * 2 + 1 ) * b - c <= 0 => {[[([[a * 2] + 1]) * b] - c] <= 0}
( a BETWEEN 1 AND 2 AND b = 3 ) => ({and {a between 1 and 2} {b = 3}})";
