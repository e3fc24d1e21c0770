//! Parentheses in parentheses.

/// Scripts of 32 levels, each with its tree.
pub const ALLOWED: &str = "\
SELECT a FROM t WHERE ( ( ( ( ( ( ( ( ( ( ( ( ( ( ( ( ( ( ( ( ( ( ( ( ( ( ( ( ( ( ( ( a ) ) ) ) ) ) ) ) ) ) ) ) ) ) ) ) ) ) ) ) ) ) ) ) ) ) ) ) ) ) ) ) = 1; => <all a from [t] where {((((((((((((((((((((((((((((((((a)))))))))))))))))))))))))))))))) = 1}>;
SELECT a FROM t WHERE ((((((((((((((((((((((((((((((((a = 1)))))))))))))))))))))))))))))))); => <all a from [t] where (((((((((((((((((((((((((((((((({a = 1}))))))))))))))))))))))))))))))))>;
SELECT ((((((((((((((((((((((((((((((((a)))))))))))))))))))))))))))))))) FROM t; => <all ((((((((((((((((((((((((((((((((a)))))))))))))))))))))))))))))))) from [t]>;
SELECT * FROM ((((((((((((((((((((((((((((((((t)))))))))))))))))))))))))))))))); => <all * from [((((((((((((((((((((((((((((((((t))))))))))))))))))))))))))))))))]>;
SELECT * FROM (SELECT * FROM (SELECT * FROM (SELECT * FROM (SELECT * FROM (SELECT * FROM (SELECT * FROM (SELECT * FROM (SELECT * FROM (SELECT * FROM (SELECT * FROM (SELECT * FROM (SELECT * FROM (SELECT * FROM (SELECT * FROM (SELECT * FROM (SELECT * FROM (SELECT * FROM (SELECT * FROM (SELECT * FROM (SELECT * FROM (SELECT * FROM (SELECT * FROM (SELECT * FROM (SELECT * FROM (SELECT * FROM (SELECT * FROM (SELECT * FROM (SELECT * FROM (SELECT * FROM (SELECT * FROM (SELECT * FROM (SELECT a FROM t) u) u) u) u) u) u) u) u) u) u) u) u) u) u) u) u) u) u) u) u) u) u) u) u) u) u) u) u) u) u) u) u; => <all * from [<all * from [<all * from [<all * from [<all * from [<all * from [<all * from [<all * from [<all * from [<all * from [<all * from [<all * from [<all * from [<all * from [<all * from [<all * from [<all * from [<all * from [<all * from [<all * from [<all * from [<all * from [<all * from [<all * from [<all * from [<all * from [<all * from [<all * from [<all * from [<all * from [<all * from [<all * from [<all a from [t]> as u]> as u]> as u]> as u]> as u]> as u]> as u]> as u]> as u]> as u]> as u]> as u]> as u]> as u]> as u]> as u]> as u]> as u]> as u]> as u]> as u]> as u]> as u]> as u]> as u]> as u]> as u]> as u]> as u]> as u]> as u]> as u]>;
SELECT a FROM t WHERE NOT (NOT (NOT (NOT (NOT (NOT (NOT (NOT (NOT (NOT (NOT (NOT (NOT (NOT (NOT (NOT (NOT (NOT (NOT (NOT (NOT (NOT (NOT (NOT (NOT (NOT (NOT (NOT (NOT (NOT (NOT (NOT (a = 1)))))))))))))))))))))))))))))))); => <all a from [t] where {not ({not ({not ({not ({not ({not ({not ({not ({not ({not ({not ({not ({not ({not ({not ({not ({not ({not ({not ({not ({not ({not ({not ({not ({not ({not ({not ({not ({not ({not ({not ({not ({a = 1})})})})})})})})})})})})})})})})})})})})})})})})})})})})})})})})}>;";

/// Scripts of 32 and more levels, each with its fault.
pub const FAULTS: &str = "\
SELECT (((((((((((((((((((((((((((((((( => syntax 39
SELECT ((((((((((((((((((((((((((((((((( => deep 39
SELECT (((((((((((((((((((((((((((((((((( => deep 39
SELECT ( ( ( ( ( ( ( ( ( ( ( ( ( ( ( ( ( ( ( ( ( ( ( ( ( ( ( ( ( ( ( ( * => syntax 71
DROP TABLE t; SELECT ((((((((((((((((((((((((((((((((( => deep 53
SELECT SUM ((((((((((((((((((((((((((((((((( => deep 43
SELECT COUNT ((((((((((((((((((((((((((((((((( => deep 45
SELECT SUM(SUM(SUM(SUM(SUM(SUM(SUM(SUM(SUM(SUM(SUM(SUM(SUM(SUM(SUM(SUM(SUM(SUM(SUM(SUM(SUM(SUM(SUM(SUM(SUM(SUM(SUM(SUM(SUM(SUM(SUM(SUM(SUM( => deep 138
SELECT ((((((((((((((((((((((((((((((((a ( => syntax 41
SELECT a FROM (((((((((((((((((((((((((((((((( => syntax 46
SELECT a FROM ((((((((((((((((((((((((((((((((( => deep 46
SELECT a FROM ((((((((((((((((((((((((((((((((t ( => syntax 48
SELECT a FROM ((((((((((((((((((((((((((((((((SELECT a FROM ( => deep 60
SELECT a FROM t CROSS JOIN ((((((((((((((((((((((((((((((((( => deep 59
SELECT a FROM t JOIN u ON ((((((((((((((((((((((((((((((((( => deep 58
SELECT a FROM t HAVING ((((((((((((((((((((((((((((((((( => deep 55
SELECT a FROM (SELECT a FROM (SELECT a FROM (SELECT a FROM (SELECT a FROM (SELECT a FROM (SELECT a FROM (SELECT a FROM (SELECT a FROM (SELECT a FROM (SELECT a FROM (SELECT a FROM (SELECT a FROM (SELECT a FROM (SELECT a FROM (SELECT a FROM (SELECT a FROM (SELECT a FROM (SELECT a FROM (SELECT a FROM (SELECT a FROM (SELECT a FROM (SELECT a FROM (SELECT a FROM (SELECT a FROM (SELECT a FROM (SELECT a FROM (SELECT a FROM (SELECT a FROM (SELECT a FROM (SELECT a FROM (SELECT a FROM (SELECT a FROM (SELECT a FROM  => deep 494
SELECT a FROM (SELECT a FROM (SELECT a FROM (SELECT a FROM (SELECT a FROM (SELECT a FROM (SELECT a FROM (SELECT a FROM (SELECT a FROM (SELECT a FROM (SELECT a FROM (SELECT a FROM (SELECT a FROM (SELECT a FROM (SELECT a FROM (SELECT a FROM (SELECT a FROM (SELECT a FROM (SELECT a FROM (SELECT a FROM (SELECT a FROM (SELECT a FROM (SELECT a FROM (SELECT a FROM (SELECT a FROM (SELECT a FROM (SELECT a FROM (SELECT a FROM (SELECT a FROM (SELECT a FROM (SELECT a FROM (SELECT a FROM (SELECT a FROM t => syntax 495
SELECT a FROM (SELECT a FROM (SELECT a FROM (SELECT a FROM (SELECT a FROM (SELECT a FROM (SELECT a FROM (SELECT a FROM (SELECT a FROM (SELECT a FROM (SELECT a FROM (SELECT a FROM (SELECT a FROM (SELECT a FROM (SELECT a FROM (SELECT a FROM (SELECT a FROM (SELECT a FROM (SELECT a FROM (SELECT a FROM (SELECT a FROM (SELECT a FROM (SELECT a FROM (SELECT a FROM (SELECT a FROM (SELECT a FROM (SELECT a FROM (SELECT a FROM (SELECT a FROM (SELECT a FROM (SELECT a FROM (SELECT a FROM (SELECT a FROM t, ( => deep 497
SELECT a FROM (SELECT a FROM (SELECT a FROM (SELECT a FROM (SELECT a FROM (SELECT a FROM (SELECT a FROM (SELECT a FROM (SELECT a FROM (SELECT a FROM (SELECT a FROM (SELECT a FROM (SELECT a FROM (SELECT a FROM (SELECT a FROM (SELECT a FROM (SELECT a FROM (SELECT a FROM (SELECT a FROM (SELECT a FROM (SELECT a FROM (SELECT a FROM (SELECT a FROM (SELECT a FROM (SELECT a FROM (SELECT a FROM (SELECT a FROM (SELECT a FROM (SELECT a FROM (SELECT a FROM (SELECT a FROM (SELECT a FROM (SELECT a FROM t AS u ( => syntax 501
SELECT a FROM (SELECT a FROM (SELECT a FROM (SELECT a FROM (SELECT a FROM (SELECT a FROM (SELECT a FROM (SELECT a FROM (SELECT a FROM (SELECT a FROM (SELECT a FROM (SELECT a FROM (SELECT a FROM (SELECT a FROM (SELECT a FROM (SELECT a FROM (SELECT a FROM (SELECT a FROM (SELECT a FROM (SELECT a FROM (SELECT a FROM (SELECT a FROM (SELECT a FROM (SELECT a FROM (SELECT a FROM (SELECT a FROM (SELECT a FROM (SELECT a FROM (SELECT a FROM (SELECT a FROM (SELECT a FROM (SELECT a FROM (SELECT a FROM t JOIN ( => deep 501
SELECT a FROM (SELECT a FROM (SELECT a FROM (SELECT a FROM (SELECT a FROM (SELECT a FROM (SELECT a FROM (SELECT a FROM (SELECT a FROM (SELECT a FROM (SELECT a FROM (SELECT a FROM (SELECT a FROM (SELECT a FROM (SELECT a FROM (SELECT a FROM (SELECT a FROM (SELECT a FROM (SELECT a FROM (SELECT a FROM (SELECT a FROM (SELECT a FROM (SELECT a FROM (SELECT a FROM (SELECT a FROM (SELECT a FROM (SELECT a FROM (SELECT a FROM (SELECT a FROM (SELECT a FROM (SELECT a FROM (SELECT a FROM (SELECT a FROM t JOIN u ON ( => deep 506
SELECT a FROM (SELECT a FROM (SELECT a FROM (SELECT a FROM (SELECT a FROM (SELECT a FROM (SELECT a FROM (SELECT a FROM (SELECT a FROM (SELECT a FROM (SELECT a FROM (SELECT a FROM (SELECT a FROM (SELECT a FROM (SELECT a FROM (SELECT a FROM (SELECT a FROM (SELECT a FROM (SELECT a FROM (SELECT a FROM (SELECT a FROM (SELECT a FROM (SELECT a FROM (SELECT a FROM (SELECT a FROM (SELECT a FROM (SELECT a FROM (SELECT a FROM (SELECT a FROM (SELECT a FROM (SELECT a FROM (SELECT a FROM (SELECT a FROM t WHERE ( => deep 502
SELECT a FROM (SELECT a FROM (SELECT a FROM (SELECT a FROM (SELECT a FROM (SELECT a FROM (SELECT a FROM (SELECT a FROM (SELECT a FROM (SELECT a FROM (SELECT a FROM (SELECT a FROM (SELECT a FROM (SELECT a FROM (SELECT a FROM (SELECT a FROM (SELECT a FROM (SELECT a FROM (SELECT a FROM (SELECT a FROM (SELECT a FROM (SELECT a FROM (SELECT a FROM (SELECT a FROM (SELECT a FROM (SELECT a FROM (SELECT a FROM (SELECT a FROM (SELECT a FROM (SELECT a FROM (SELECT a FROM (SELECT a FROM (SELECT a FROM t GROUP BY ( => syntax 505
SELECT a FROM (SELECT a FROM (SELECT a FROM (SELECT a FROM (SELECT a FROM (SELECT a FROM (SELECT a FROM (SELECT a FROM (SELECT a FROM (SELECT a FROM (SELECT a FROM (SELECT a FROM (SELECT a FROM (SELECT a FROM (SELECT a FROM (SELECT a FROM (SELECT a FROM (SELECT a FROM (SELECT a FROM (SELECT a FROM (SELECT a FROM (SELECT a FROM (SELECT a FROM (SELECT a FROM (SELECT a FROM (SELECT a FROM (SELECT a FROM (SELECT a FROM (SELECT a FROM (SELECT a FROM (SELECT a FROM (SELECT a FROM (SELECT a FROM t HAVING ( => deep 503
SELECT a FROM t WHERE (((((((((((((((((((((((((((((((( => syntax 54
SELECT a FROM t WHERE ((((((((((((((((((((((((((((((((( => deep 54
SELECT a FROM t WHERE a IN ((((((((((((((((((((((((((((((((( => deep 59
SELECT a FROM t WHERE NOT ((((((((((((((((((((((((((((((((( => deep 58
SELECT a FROM t WHERE NOT (NOT (NOT (NOT (NOT (NOT (NOT (NOT (NOT (NOT (NOT (NOT (NOT (NOT (NOT (NOT (NOT (NOT (NOT (NOT (NOT (NOT (NOT (NOT (NOT (NOT (NOT (NOT (NOT (NOT (NOT (NOT (NOT ( => deep 186
SELECT a FROM t WHERE a + (a + (a + (a + (a + (a + (a + (a + (a + (a + (a + (a + (a + (a + (a + (a + (a + (a + (a + (a + (a + (a + (a + (a + (a + (a + (a + (a + (a + (a + (a + (a + (a + ( => deep 186
SELECT a FROM t WHERE a IN (SELECT a FROM t WHERE a IN (SELECT a FROM t WHERE a IN (SELECT a FROM t WHERE a IN (SELECT a FROM t WHERE a IN (SELECT a FROM t WHERE a IN (SELECT a FROM t WHERE a IN (SELECT a FROM t WHERE a IN (SELECT a FROM t WHERE a IN (SELECT a FROM t WHERE a IN (SELECT a FROM t WHERE a IN (SELECT a FROM t WHERE a IN (SELECT a FROM t WHERE a IN (SELECT a FROM t WHERE a IN (SELECT a FROM t WHERE a IN (SELECT a FROM t WHERE a IN (SELECT a FROM t WHERE a IN (SELECT a FROM t WHERE a IN (SELECT a FROM t WHERE a IN (SELECT a FROM t WHERE a IN (SELECT a FROM t WHERE a IN (SELECT a FROM t WHERE a IN (SELECT a FROM t WHERE a IN (SELECT a FROM t WHERE a IN (SELECT a FROM t WHERE a IN (SELECT a FROM t WHERE a IN (SELECT a FROM t WHERE a IN (SELECT a FROM t WHERE a IN (SELECT a FROM t WHERE a IN (SELECT a FROM t WHERE a IN (SELECT a FROM t WHERE a IN (SELECT a FROM t WHERE a IN (SELECT a FROM t WHERE a IN (SELECT a FROM t WHERE  => deep 923
SELECT a FROM t WHERE EXISTS (SELECT a FROM t WHERE EXISTS (SELECT a FROM t WHERE EXISTS (SELECT a FROM t WHERE EXISTS (SELECT a FROM t WHERE EXISTS (SELECT a FROM t WHERE EXISTS (SELECT a FROM t WHERE EXISTS (SELECT a FROM t WHERE EXISTS (SELECT a FROM t WHERE EXISTS (SELECT a FROM t WHERE EXISTS (SELECT a FROM t WHERE EXISTS (SELECT a FROM t WHERE EXISTS (SELECT a FROM t WHERE EXISTS (SELECT a FROM t WHERE EXISTS (SELECT a FROM t WHERE EXISTS (SELECT a FROM t WHERE EXISTS (SELECT a FROM t WHERE EXISTS (SELECT a FROM t WHERE EXISTS (SELECT a FROM t WHERE EXISTS (SELECT a FROM t WHERE EXISTS (SELECT a FROM t WHERE EXISTS (SELECT a FROM t WHERE EXISTS (SELECT a FROM t WHERE EXISTS (SELECT a FROM t WHERE EXISTS (SELECT a FROM t WHERE EXISTS (SELECT a FROM t WHERE EXISTS (SELECT a FROM t WHERE EXISTS (SELECT a FROM t WHERE EXISTS (SELECT a FROM t WHERE EXISTS (SELECT a FROM t WHERE EXISTS (SELECT a FROM t WHERE EXISTS (SELECT a FROM t WHERE EXISTS (SELECT a FROM t WHERE EXISTS (SELECT a FROM t WHERE  => deep 989
SELECT a FROM t WHERE ((((((((((((((((((((((((((((((((a + ( => deep 58
SELECT a FROM t WHERE ((((((((((((((((((((((((((((((((a * ( => deep 58
SELECT a FROM t WHERE ((((((((((((((((((((((((((((((((- ( => deep 56
SELECT a FROM t WHERE ((((((((((((((((((((((((((((((((COUNT ( => deep 60
SELECT a FROM t WHERE ((((((((((((((((((((((((((((((((MAX ( => deep 58
SELECT a FROM t WHERE ((((((((((((((((((((((((((((((((a = ( => deep 58
SELECT a FROM t WHERE ((((((((((((((((((((((((((((((((a LIKE ( => deep 61
SELECT a FROM t WHERE ((((((((((((((((((((((((((((((((a NOT LIKE ( => deep 65
SELECT a FROM t WHERE ((((((((((((((((((((((((((((((((a BETWEEN ( => deep 64
SELECT a FROM t WHERE ((((((((((((((((((((((((((((((((a BETWEEN 1 AND ( => deep 70
SELECT a FROM t WHERE ((((((((((((((((((((((((((((((((a IN ( => deep 59
SELECT a FROM t WHERE ((((((((((((((((((((((((((((((((a NOT IN ( => deep 63
SELECT a FROM t WHERE ((((((((((((((((((((((((((((((((EXISTS ( => deep 61
SELECT a FROM t WHERE ((((((((((((((((((((((((((((((((NOT ( => deep 58
SELECT a FROM t WHERE ((((((((((((((((((((((((((((((((a = 1 AND ( => deep 64
SELECT a FROM t WHERE ((((((((((((((((((((((((((((((((a = 1 OR ( => deep 63
SELECT a FROM t WHERE ((((((((((((((((((((((((((((((((a = 1 AND NOT ( => deep 68
SELECT a FROM t WHERE ((((((((((((((((((((((((((((((((a ( => syntax 56
SELECT a FROM t WHERE ((((((((((((((((((((((((((((((((1 ( => syntax 56
SELECT a FROM t WHERE ((((((((((((((((((((((((((((((((a . ( => syntax 58
SELECT a FROM t WHERE ((((((((((((((((((((((((((((((((a IS ( => syntax 59
SELECT a FROM t WHERE ((((((((((((((((((((((((((((((((a NOT ( => syntax 60
SELECT a FROM t WHERE ((((((((((((((((((((((((((((((((a = 1 ( => syntax 60
SELECT a FROM t WHERE ((((((((((((((((((((((((((((((((a = 1) ( => syntax 61
SELECT a FROM t WHERE ((((((((((((((((((((((((((((((((a BETWEEN 1 ( => syntax 66
SELECT a FROM t WHERE ((((((((((((((((((((((((((((((((a = 1 IS ( => syntax 63
SELECT a FROM t WHERE ((((((((((((((((((((((((((((((((NOT NOT ( => syntax 58";
