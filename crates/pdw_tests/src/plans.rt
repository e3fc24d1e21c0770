//! EXPLAIN through the whole program.

use super::runs::{Run, assert_scripts, ended, entries};
use pdw_run::Status;
use std::alloc::Global;
use std::str;
use std::test::Fail;

// A table of which nothing is known, over four nodes. Each node counts its own rows, which makes one row of 16 bytes, and all four
// go to one node: 64 bytes, of which the bulk load, the dearest part of the way, takes 3 each: 192.
const COUNTED: Run<'static> = Run {
    words: "run 4 s",
    script: "CREATE TABLE e (k INT, v INT) WITH (DISTRIBUTION = HASH(k));",
    records: "",
};

const LINES: &str = "\
EXPLAIN SELECT COUNT(*) FROM e; => Done OK~COST 192~PROJECT G3 SINGLE~  FINAL G2 SINGLE~    TOSINGLE G1 SINGLE ROWS 4 WIDTH 16 COST 192~      PARTIAL G1 SPREAD~        SCAN G0 e SPREAD~
EXPLAIN SELECT COUNT(*) FROM f; => Refused OK~REFUSED E9 STATEMENT 2 UNKNOWNTABLE f~
";

#[test]
fn a_plan_is_printed_node_by_node(rt: HostRuntime) -> Result<(), Fail> {
    assert_scripts(&rt, rt.alloc(), COUNTED, LINES)
}

// A placing of orders, the rows of customers, and then the cost and the moves of a plan for their join over two nodes. There are
// 1,000 orders, and each row of either table has 16 bytes.
//
// - 100 customers: 1,600 bytes, 800 at each node, sent to both nodes at 4 a byte: 2 * 800 * 4 = 6,400.
// - 100,000 customers: to send the orders to the nodes of their customers is cheaper: 16,000 bytes, 8,000 at each node, at 4: 32,000.
// - Orders that stand at the nodes of their customers need not move.
const MOVES: &str = "\
id 100 => COST 6400~BROADCAST G1 REPLICATED ROWS 100 WIDTH 16 COST 6400~
id 100000 => COST 32000~SHUFFLE G0 HASH(0) ROWS 1000 WIDTH 16 COST 32000~
cust 100 => COST 0~
";

// The script that explains the join.
fn joined(alloc: Global, hash: &str, rows: &str) -> Result<String, Fail> {
    Ok([
        "CREATE TABLE orders (id INT, cust INT) WITH (DISTRIBUTION = HASH(",
        hash,
        "));CREATE TABLE customers (cid INT, zone INT) WITH (DISTRIBUTION = HASH(cid));",
        "UPDATE STATISTICS orders WITH ROWS 1000;UPDATE STATISTICS customers WITH ROWS ",
        rows,
        ";EXPLAIN SELECT id, cust, cid, zone FROM orders JOIN customers ON cust = cid;",
    ]
    .concat(alloc)?)
}

// The line of the cost and those of moves, without their indentation.
fn moves_in(alloc: Global, printed: &str) -> Result<String, Fail> {
    let mut kept = String::new(alloc);
    for line in printed.lines() {
        if line.starts_with("COST ") || line.contains(" ROWS ") {
            kept.push_str(line.trim_start())?;
            kept.push('~')?;
        }
    }
    Ok(kept)
}

#[test]
fn the_cheaper_side_of_a_join_moves(rt: HostRuntime) -> Result<(), Fail> {
    let alloc = rt.alloc();
    for line in MOVES.lines() {
        let (tables, wanted) = line.split_once(" => ").ok_or("an arrow")?;
        let (hash, rows) = tables.split_once(' ').ok_or("a placing and a number")?;
        let script = joined(alloc, hash, rows)?;
        let run = Run {
            words: "run 2 s",
            script: script.as_str(),
            records: "",
        };
        let (status, text) = ended(alloc, run.words, entries(alloc, run)?)?;
        assert_eq!(rt; status, Status::Done, "{line}");
        let found = moves_in(alloc, str::from_utf8(text.as_slice())?)?;
        assert_eq!(rt; found.as_str(), wanted, "{line}");
    }
    Ok(())
}
