//! The output columns of trees, also of some that no query has.

use super::sessions::session_of;
use pdw_algebra::{Tree, schema_of};
use pdw_base::{ColId, Kind, NoMemory, Str};
use pdw_expr::{Agg, AggKind, JoinKind, Scalar};
use sqlite_items::{Boxed, Items};
use std::alloc::Global;
use std::process::Abort;
use std::test::Fail;

const TABLE: &str = "CREATE TABLE t (a INT, b TEXT) WITH (DISTRIBUTION = REPLICATE);";

// A scan of t, with these columns.
fn scan(alloc: Global, columns: &[(ColId, u32)]) -> Result<Boxed<Tree>, NoMemory> {
    let table = Str::from_text(alloc, "t")?;
    let alias = Str::from_text(alloc, "x")?;
    let cols = Items::from_slice(alloc, columns)?;
    Ok(Boxed::new(alloc, Tree::Scan { table, alias, cols })?)
}

// A join of a number and a text, the text with the lesser column.
fn join(alloc: Global, kind: JoinKind) -> Result<Boxed<Tree>, NoMemory> {
    let left = scan(alloc, &[(ColId(4), 0)])?;
    let right = scan(alloc, &[(ColId(2), 1)])?;
    let conds = Items::new(alloc);
    let join = Tree::Join {
        kind,
        conds,
        left,
        right,
    };
    Ok(Boxed::new(alloc, join)?)
}

// The greatest text.
fn greatest(alloc: Global) -> Result<Items<Agg>, NoMemory> {
    let mut aggs = Items::new(alloc);
    aggs.push(Agg {
        kind: AggKind::Max,
        arg: Some(Scalar::Col(ColId(7))),
        out: ColId(3),
    })?;
    Ok(aggs)
}

// The greatest text for each number, which is a key twice.
fn group(alloc: Global) -> Result<Boxed<Tree>, NoMemory> {
    let child = scan(alloc, &[(ColId(4), 0), (ColId(7), 1)])?;
    let keys = Items::from_slice(alloc, &[ColId(4), ColId(4)])?;
    let aggs = greatest(alloc)?;
    Ok(Boxed::new(alloc, Tree::GroupBy { keys, aggs, child })?)
}

fn assert_columns(
    rt: &impl Abort,
    alloc: Global,
    tree: &Tree,
    wanted: &[(ColId, Kind)],
) -> Result<(), Fail> {
    let session = session_of(alloc, TABLE)?;
    let schema = schema_of(alloc, tree, session.appliance().catalog())?;
    assert!(rt; schema.cols() == wanted);
    Ok(())
}

// The last column is none of the table.
#[test]
fn a_scan_gives_its_columns_by_rising_numbers(rt: HostRuntime) -> Result<(), Fail> {
    let tree = scan(rt.alloc(), &[(ColId(7), 1), (ColId(9), 2), (ColId(4), 0)])?;
    let wanted = [
        (ColId(4), Kind::Int),
        (ColId(7), Kind::Text),
        (ColId(9), Kind::Int),
    ];
    assert_columns(&rt, rt.alloc(), tree.get(), &wanted)
}

#[test]
fn a_semi_join_gives_its_left_side_alone(rt: HostRuntime) -> Result<(), Fail> {
    let tree = join(rt.alloc(), JoinKind::Semi)?;
    assert_columns(&rt, rt.alloc(), tree.get(), &[(ColId(4), Kind::Int)])
}

#[test]
fn a_left_join_gives_both_sides(rt: HostRuntime) -> Result<(), Fail> {
    let tree = join(rt.alloc(), JoinKind::Left)?;
    let wanted = [(ColId(2), Kind::Text), (ColId(4), Kind::Int)];
    assert_columns(&rt, rt.alloc(), tree.get(), &wanted)
}

#[test]
fn a_repeated_key_stands_once(rt: HostRuntime) -> Result<(), Fail> {
    let tree = group(rt.alloc())?;
    let wanted = [(ColId(3), Kind::Text), (ColId(4), Kind::Int)];
    assert_columns(&rt, rt.alloc(), tree.get(), &wanted)
}
