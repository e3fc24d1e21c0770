//! Files with a faulty record.

use super::runs::{Run, assert_files};
use std::test::Fail;

const RUN: Run<'static> = Run {
    words: "run 3 s",
    script: "CREATE TABLE t (a INT NOT NULL, b TEXT) WITH (DISTRIBUTION = HASH(b));~LOAD t FROM 't.csv';~SELECT a FROM t;~",
    records: "",
};

// The records, and how the run ends.
const FAULTS: &str = "\
1,x~2~ => Refused OK~REFUSED E17 STATEMENT 2 FIELDCOUNT 2~
1,x,y~ => Refused OK~REFUSED E17 STATEMENT 2 FIELDCOUNT 1~
x,y~ => Refused OK~REFUSED E17 STATEMENT 2 BADINT 1 1~
1,x~2,y~9223372036854775808,z~ => Refused OK~REFUSED E17 STATEMENT 2 BADINT 3 1~
1,\\N~\\N,x~ => Refused OK~REFUSED E17 STATEMENT 2 NULLFIELD 2 1~
1,x~2,?~ => Refused OK~REFUSED E17 STATEMENT 2 NOTUTF8 2 2~
x,?~1~ => Refused OK~REFUSED E17 STATEMENT 2 BADINT 1 1~
1,x~1,{1000:y} => Done OK~LOADED 2~a~1~1~ROWS 2~
1,x~2,{1001:y} => Refused OK~REFUSED E17 STATEMENT 2 LONGTEXT 2 2~
";

#[test]
fn the_first_faulty_record_is_named(rt: HostRuntime) -> Result<(), Fail> {
    assert_files(&rt, rt.alloc(), RUN, FAULTS)
}
