//! Statements and their canonical spellings.

/// A statement and its spelling on each line.
pub const SPELLINGS: &str = "\
select a b from t u; => SELECT a AS b FROM t AS u
SET budget 5; => SET BUDGET 5
select x.a from x join y on (x.a=y.a) order by 1; => SELECT x . a FROM x INNER JOIN y ON ( x . a = y . a ) ORDER BY 1 ASC
create table T(a int,b text not null)with(distribution=hash(a)); => CREATE TABLE t ( a INT , b TEXT NOT NULL ) WITH ( DISTRIBUTION = HASH ( a ) )
create table hash (hash text) with (distribution = replicate); => CREATE TABLE hash ( hash TEXT ) WITH ( DISTRIBUTION = REPLICATE )
drop table T_1; => DROP TABLE t_1
load t from 'it''s.csv'; => LOAD t FROM 'it''s.csv'
load load from ''; => LOAD load FROM ''
update statistics t; => UPDATE STATISTICS t
update statistics t with rows 0; => UPDATE STATISTICS t WITH ROWS 0
update statistics t with rows 007, a distinct 3 width 8, b distinct 2 width 40; => UPDATE STATISTICS t WITH ROWS 7 , a DISTINCT 3 WIDTH 8 , b DISTINCT 2 WIDTH 40
set cost reader 1; => SET COST READER 1
set cost hashreader 2; => SET COST HASHREADER 2
set cost network 3; => SET COST NETWORK 3
set cost writer 4; => SET COST WRITER 4
set cost bulk 5; => SET COST BULK 5
set cost control 6; => SET COST CONTROL 6
explain select*from t; => EXPLAIN SELECT * FROM t
explain json select * from t; => EXPLAIN JSON SELECT * FROM t
profile select all * from t; => PROFILE SELECT * FROM t
check plan 'p' for select * from t order by a desc; => CHECK PLAN 'p' FOR SELECT * FROM t ORDER BY a DESC
select distinct t.*, a, -a as n, +1 from t; => SELECT DISTINCT t . * , a , - a AS n , + 1 FROM t
select count(*), count(a), sum(a+b), min(a), max((a)) from t; => SELECT COUNT ( * ) , COUNT ( a ) , SUM ( a + b ) , MIN ( a ) , MAX ( ( a ) ) FROM t
select a+b-c*d/e%f, (a+b)*-c, 'x''y', '' from t; => SELECT a + b - c * d / e % f , ( a + b ) * - c , 'x''y' , '' FROM t
select 9223372036854775807 from t; => SELECT 9223372036854775807 FROM t
select a from t, u v, (select b from w) x, (y); => SELECT a FROM t , u AS v , ( SELECT b FROM w ) AS x , ( y )
select a from t cross join u left outer join v on a=1; => SELECT a FROM t CROSS JOIN u LEFT JOIN v ON a = 1
select a from t right join w on b=2 full outer join x on c=3; => SELECT a FROM t RIGHT JOIN w ON b = 2 FULL JOIN x ON c = 3
select a from t inner join y on d=4 join z on e=5; => SELECT a FROM t INNER JOIN y ON d = 4 INNER JOIN z ON e = 5
select a from (t join u on a=b) join v on c=d; => SELECT a FROM ( t INNER JOIN u ON a = b ) INNER JOIN v ON c = d
select a from t where a=1 and b<>2 and c<3 and d<=4 and e>5 and f>=6; => SELECT a FROM t WHERE a = 1 AND b <> 2 AND c < 3 AND d <= 4 AND e > 5 AND f >= 6
select a from t where a=1 or b=2 and not c=3; => SELECT a FROM t WHERE a = 1 OR b = 2 AND NOT c = 3
select a from t where (a=1 or b=2) and not (not c=3); => SELECT a FROM t WHERE ( a = 1 OR b = 2 ) AND NOT ( NOT c = 3 )
select a from t where a like 'x%' and b not like '_'; => SELECT a FROM t WHERE a LIKE 'x%' AND b NOT LIKE '_'
select a from t where a is null or b is not null; => SELECT a FROM t WHERE a IS NULL OR b IS NOT NULL
select a from t where a between 1 and 2 and b not between c and d+1; => SELECT a FROM t WHERE a BETWEEN 1 AND 2 AND b NOT BETWEEN c AND d + 1
select a from t where a in (1) or b not in (1,2,c); => SELECT a FROM t WHERE a IN ( 1 ) OR b NOT IN ( 1 , 2 , c )
select a from t where a in (select b from u) and c not in (select d from v); => SELECT a FROM t WHERE a IN ( SELECT b FROM u ) AND c NOT IN ( SELECT d FROM v )
select a from t where exists(select*from u) and not exists(select 1 from u); => SELECT a FROM t WHERE EXISTS ( SELECT * FROM u ) AND NOT EXISTS ( SELECT 1 FROM u )
select a from t where a=1 is true and b=2 is not false or (c=3) is unknown; => SELECT a FROM t WHERE a = 1 IS TRUE AND b = 2 IS NOT FALSE OR ( c = 3 ) IS UNKNOWN
select a from t where (((a)))=(1); => SELECT a FROM t WHERE ( ( ( a ) ) ) = ( 1 )
select a from t group by a, t.b having count(*)>1; => SELECT a FROM t GROUP BY a , t . b HAVING COUNT ( * ) > 1
select a from t order by a, 2 desc, c asc; => SELECT a FROM t ORDER BY a ASC , 2 DESC , c ASC";
