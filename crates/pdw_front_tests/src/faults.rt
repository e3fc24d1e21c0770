//! Scripts with the places of their faults.

/// A script on each line, and the place at which it goes wrong or ends too early.
pub const SCRIPTS: &str = "\
; => syntax 0
t; => syntax 0
LOADS t => syntax 0
JSON SELECT => syntax 0
PLAN 'p' => syntax 0
DROP TABLE t => syntax 12
DROP TABLE t;; => syntax 13
DROP TABLE t DROP => syntax 13
DROP TABLE t ; x ; => syntax 15
DROP t => syntax 5
DROP TABLE 1 => syntax 11
DROP TABLE t , u => syntax 13
CREATE t => syntax 7
CREATE TABLE TABLE => syntax 13
CREATE TABLE t a => syntax 15
CREATE TABLE t ( ) => syntax 17
CREATE TABLE t ( a ) => syntax 19
CREATE TABLE t ( a WIDE => syntax 19
CREATE TABLE t ( a INT NULL => syntax 23
CREATE TABLE t ( a INT NOT ) => syntax 27
CREATE TABLE t ( a INT , ) => syntax 25
CREATE TABLE t ( a INT b => syntax 23
CREATE TABLE t ( a INT ) ( => syntax 25
CREATE TABLE t ( a INT ) WITH HASH => syntax 30
CREATE TABLE t ( a INT ) WITH ( HASH => syntax 32
CREATE TABLE t ( a INT ) WITH ( DISTRIBUTION HASH => syntax 45
CREATE TABLE t ( a INT ) WITH ( DISTRIBUTION = a => syntax 47
CREATE TABLE t ( a INT ) WITH ( DISTRIBUTION = HASH a => syntax 52
CREATE TABLE t ( a INT ) WITH ( DISTRIBUTION = HASH ( ) => syntax 54
CREATE TABLE t ( a INT ) WITH ( DISTRIBUTION = HASH ( a b => syntax 56
CREATE TABLE t ( a INT ) WITH ( DISTRIBUTION = HASH ( a ) , => syntax 58
CREATE TABLE t ( a INT ) WITH ( DISTRIBUTION = REPLICATE ; => syntax 57
CREATE TABLE t ( a INT ) WITH ( DISTRIBUTION = REPLICATE ) ) => syntax 59
LOAD 't' => syntax 5
LOAD t 'f' => syntax 7
LOAD t FROM f => syntax 12
LOAD t FROM 'f' , => syntax 16
UPDATE t => syntax 7
UPDATE STATISTICS 1 => syntax 18
UPDATE STATISTICS t ROWS => syntax 20
UPDATE STATISTICS t WITH 5 => syntax 25
UPDATE STATISTICS t WITH ROWS a => syntax 30
UPDATE STATISTICS t WITH ROWS - 1 => syntax 30
UPDATE STATISTICS t WITH ROWS 1 a => syntax 32
UPDATE STATISTICS t WITH ROWS 1 , DISTINCT => syntax 34
UPDATE STATISTICS t WITH ROWS 1 , a 2 => syntax 36
UPDATE STATISTICS t WITH ROWS 1 , a DISTINCT WIDTH => syntax 45
UPDATE STATISTICS t WITH ROWS 1 , a DISTINCT 2 3 => syntax 47
UPDATE STATISTICS t WITH ROWS 1 , a DISTINCT 2 WIDTH a => syntax 53
UPDATE STATISTICS t WITH ROWS 1 , a DISTINCT 2 WIDTH 3 4 => syntax 55
SET 5 => syntax 4
SET READER 1 => syntax 4
SET BUDGET a => syntax 11
SET BUDGET - 1 => syntax 11
SET BUDGET 1 2 => syntax 13
SET COST 1 => syntax 9
SET COST ROWS 1 => syntax 9
SET COST READER 'x' => syntax 16
SET COST READER 1 , => syntax 18
EXPLAIN DROP => syntax 8
EXPLAIN EXPLAIN => syntax 8
EXPLAIN JSON JSON => syntax 13
PROFILE t => syntax 8
PROFILE JSON SELECT => syntax 8
CHECK SELECT => syntax 6
CHECK PLAN p => syntax 11
CHECK PLAN 'p' SELECT => syntax 15
CHECK PLAN 'p' FOR PLAN => syntax 19
SELECT a FROM => syntax 13
SELECT a FROM t;SELECT => syntax 22
SELECT FROM t => syntax 7
SELECT ALL DISTINCT a => syntax 11
SELECT * , a FROM t => syntax 9
SELECT * a => syntax 9
SELECT a , * FROM t => syntax 11
SELECT a , FROM t => syntax 11
SELECT a AS FROM t => syntax 12
SELECT a AS 1 => syntax 12
SELECT a b c FROM t => syntax 11
SELECT t.* x FROM t => syntax 11
SELECT t.* + 1 FROM t => syntax 11
SELECT t . FROM => syntax 11
SELECT (t.*) => syntax 10
SELECT a + t.* FROM t => syntax 13
SELECT 1.a => syntax 8
SELECT a = 1 FROM t => syntax 9
SELECT (a = 1) FROM t => syntax 10
SELECT NOT a => syntax 7
SELECT EXISTS => syntax 7
SELECT - - a => syntax 9
SELECT a + FROM => syntax 11
SELECT a * / b => syntax 11
SELECT ( ) => syntax 9
SELECT ( a , b ) => syntax 11
SELECT ( a FROM t => syntax 11
SELECT a ) FROM t => syntax 9
SELECT COUNT a => syntax 13
SELECT COUNT FROM t => syntax 13
SELECT COUNT ( ) => syntax 15
SELECT COUNT ( DISTINCT a ) => syntax 15
SELECT COUNT ( * + 1 ) => syntax 17
SELECT COUNT ( * , a ) => syntax 17
SELECT SUM ( * ) => syntax 13
SELECT SUM ( a = 1 ) => syntax 15
SELECT 'a' 'b' => syntax 11
SELECT a FROM ; => syntax 14
SELECT a FROM 1 => syntax 14
SELECT a FROM t , ; => syntax 18
SELECT a FROM t AS ; => syntax 19
SELECT a FROM t u v => syntax 18
SELECT a FROM t . u => syntax 16
SELECT a FROM t CROSS u => syntax 22
SELECT a FROM t CROSS OUTER JOIN => syntax 22
SELECT a FROM t CROSS JOIN u ON a = b => syntax 29
SELECT a FROM t JOIN JOIN => syntax 21
SELECT a FROM t JOIN u WHERE => syntax 23
SELECT a FROM t JOIN u ; => syntax 23
SELECT a FROM t JOIN u ON ; => syntax 26
SELECT a FROM t JOIN u ON a = b ON c = d => syntax 32
SELECT a FROM t INNER LEFT => syntax 22
SELECT a FROM t INNER OUTER JOIN => syntax 22
SELECT a FROM t LEFT u => syntax 21
SELECT a FROM t LEFT OUTER u => syntax 27
SELECT a FROM t RIGHT OUTER OUTER => syntax 28
SELECT a FROM t FULL FULL => syntax 21
SELECT a FROM t OUTER JOIN => syntax 16
SELECT a FROM ( ) => syntax 16
SELECT a FROM ( t , u ) => syntax 18
SELECT a FROM ( t ) u => syntax 20
SELECT a FROM ( t ) AS u => syntax 20
SELECT a FROM ( SELECT a FROM t ) ; => syntax 34
SELECT a FROM ( SELECT a FROM t ) AS ; => syntax 37
SELECT a FROM ( SELECT a FROM t ORDER BY a => syntax 32
SELECT a FROM ( ( SELECT a FROM t ) ) => syntax 36
SELECT a FROM t WHERE ( a => syntax 25
SELECT a FROM t WHERE a = 1 WHERE => syntax 28
SELECT a FROM t GROUP a => syntax 22
SELECT a FROM t GROUP BY ; => syntax 25
SELECT a FROM t GROUP BY 1 => syntax 25
SELECT a FROM t GROUP BY ( a ) => syntax 25
SELECT a FROM t GROUP BY a ,; => syntax 28
SELECT a FROM t GROUP BY a . ; => syntax 29
SELECT a FROM t GROUP BY a WHERE => syntax 27
SELECT a FROM t GROUP BY a + 1 => syntax 27
SELECT a FROM t HAVING a => syntax 24
SELECT a FROM t HAVING a = 1 GROUP => syntax 29
SELECT a FROM t ORDER a => syntax 22
SELECT a FROM t ORDER BY ; => syntax 25
SELECT a FROM t ORDER BY - 1 => syntax 25
SELECT a FROM t ORDER BY 'a' => syntax 25
SELECT a FROM t ORDER BY t . a => syntax 27
SELECT a FROM t ORDER BY a , ; => syntax 29
SELECT a FROM t ORDER BY a ASC DESC => syntax 31
SELECT a FROM t ORDER BY a WHERE => syntax 27";

/// A condition on each line, and the place in a script that has it at 22.
pub const CONDITIONS: &str = "\
a => syntax 23
 => syntax 22
a =  => syntax 26
a = - - 1 => syntax 28
a = b = c => syntax 28
a = 1 b = 1 => syntax 28
a + = 1 => syntax 26
- = 1 => syntax 24
a . = 1 => syntax 26
a.b.c = 1 => syntax 25
a LIKE => syntax 28
a NOT b => syntax 28
a NOT = b => syntax 28
a NOT IS NULL => syntax 28
a NOT NULL => syntax 28
a IS TRUE => syntax 27
a IS NOT TRUE => syntax 31
a BETWEEN 1 => syntax 33
a BETWEEN 1 AND => syntax 37
a BETWEEN 1 OR 2 => syntax 34
a BETWEEN ( b = 1 ) AND 2 => syntax 36
a IN 1 => syntax 27
a IN ( ) => syntax 29
a IN ( 1 , ) => syntax 33
a IN ( 1 2 ) => syntax 31
a IN ( SELECT a FROM t , ) => syntax 47
a IN ( ( SELECT a FROM t ) ) => syntax 31
EXISTS a => syntax 29
EXISTS ( a ) => syntax 31
EXISTS ( ( SELECT a FROM t ) ) => syntax 31
( SELECT a FROM t ) = 1 => syntax 24
NOT a => syntax 27
NOT NOT a = 1 => syntax 26
NOT ( a ) IS TRUE => syntax 35
a = 1 IS => syntax 30
a = 1 IS NULL => syntax 31
a = 1 IS NOT => syntax 34
a = 1 IS TRUE IS TRUE => syntax 36
a = 1 AND => syntax 31
a = 1 OR OR b = 1 => syntax 31
a = 1 AND ( b ) => syntax 37
( a ) IS TRUE => syntax 31
( a ) IS NOT TRUE => syntax 35
( a ) => syntax 27
( a = 1 => syntax 29
( a = 1 ) = 2 => syntax 32
( a = 1 ) + 1 = 2 => syntax 32
( ( a = 1 ) + 1 ) = 2 => syntax 34
( a IN ( 1 ) ) * 2 = 1 => syntax 37
( a , b ) = 1 => syntax 26
( NOT a ) => syntax 30
( NOT a = 1 ) = 2 => syntax 36
( ( a ) = 1 ) IS NULL => syntax 39
( a IS NULL ) IS NULL => syntax 39
( a ) b = 1 => syntax 28
( a ) . b = 1 => syntax 28
( a ) AND b = 1 => syntax 28
( a AND b = 1 ) => syntax 26
( a + b AND c = 1 ) => syntax 30";
