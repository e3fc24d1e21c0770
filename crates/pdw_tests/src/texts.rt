//! What is printed of rows, and of scripts that are no texts of the grammar.

use super::runs::{
    PRINTED, RECORDS, Run, SCRIPT, assert_files, assert_scripts, bytes_of, ended, entries,
};
use pdw_run::Status;
use std::alloc::Global;
use std::process::Abort;
use std::test::Fail;

const ON_ONE_NODE: Run<'static> = Run {
    words: "run 1 s",
    script: SCRIPT,
    records: RECORDS,
};

const FILES: &str = "\
4,x~\\N,y~ => Done OK~LOADED 2~a,b~4,\"x\"~NULL,\"y\"~ROWS 2~
 => Done OK~LOADED 0~a,b~ROWS 0~
-7,~9223372036854775807,\"\"~-9223372036854775808,NULL => Done OK~LOADED 3~a,b~-7,\"\"~9223372036854775807,\"\"~-9223372036854775808,\"NULL\"~ROWS 3~
1,\"a \"\"b\"\", c~d\"~2,\"\"\"\"~\\N,\\N~ => Done OK~LOADED 3~a,b~1,\"a \"\"b\"\", c~d\"~2,\"\"\"\"~NULL,NULL~ROWS 3~
";

#[test]
fn rows_are_printed_as_their_kinds_are(rt: HostRuntime) -> Result<(), Fail> {
    assert_files(&rt, rt.alloc(), ON_ONE_NODE, FILES)
}

// The rows in the other order.
const TURNED: &str = "OK~LOADED 2~a,b~NULL,\"y\"~4,\"x\"~ROWS 2~";

// A run of these words prints the rows in one of the two orders.
fn assert_rows(rt: &impl Abort, alloc: Global, words: &str) -> Result<(), Fail> {
    let printed = bytes_of(alloc, PRINTED)?;
    let turned = bytes_of(alloc, TURNED)?;
    let (status, text) = ended(alloc, words, entries(alloc, ON_ONE_NODE)?)?;
    assert_eq!(rt; status, Status::Done, "{words}");
    assert!(rt;
        text.as_slice() == printed.as_slice() || text.as_slice() == turned.as_slice(),
        "{words}"
    );
    Ok(())
}

#[test]
fn the_rows_of_nodes_follow_one_another(rt: HostRuntime) -> Result<(), Fail> {
    for words in ["run 1 s", "run 2 s", "run 3 s", "run 16 s"] {
        assert_rows(&rt, rt.alloc(), words)?;
    }
    Ok(())
}

const SCRIPTS: Run<'static> = Run {
    words: "run 3 s",
    script: "",
    records: RECORDS,
};

// A fault of a piece comes before one of the grammar that stands earlier, and nothing is executed where a later
// statement is no text of the grammar.
const FAULTY_SCRIPTS: &str = "\
SELECT a FROM => Refused REFUSED E6 SYNTAX AT 13~
SELECT ((((((((((((((((((((((((((((((((( => Refused REFUSED E7 TOODEEP AT 39~
SELECT 9223372036854775808 FROM t; => Refused REFUSED E4 BIGNUMBER AT 7~
DROP ? => Refused REFUSED E1 NOTUTF8 AT 5~
DROP # => Refused REFUSED E2 BADCHAR AT 5~
LOAD t FROM 'f => Refused REFUSED E3 OPENTEXT AT 12~
DROP; 'f => Refused REFUSED E3 OPENTEXT AT 6~
CREATE TABLE t (a INT) WITH (DISTRIBUTION = HASH(a)); DROP t; => Refused REFUSED E6 SYNTAX AT 59~
";

#[test]
fn the_first_fault_of_a_text_is_printed(rt: HostRuntime) -> Result<(), Fail> {
    assert_scripts(&rt, rt.alloc(), SCRIPTS, FAULTY_SCRIPTS)
}
