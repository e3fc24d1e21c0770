use crate::support::check;
use pdw_algebra::LocalTree;
use pdw_base::{ColId, NoMemory, Node, Value};
use pdw_expr::{Cmp, Cond, JoinKind, Scalar};
use sqlite_items::{Boxed, Items};
use std::alloc::Global;
use std::process::Abort;
use std::test::Fail;

// Which conditions a join has.
#[derive(Clone, Copy)]
enum On {
    // the first columns are equal
    Keys,
    // they are, and the second column of the left side is 10
    KeysAndTen,
    // the left key is less
    Less,
}

fn first_columns(op: Cmp) -> Cond {
    Cond::Compare(op, Scalar::Col(ColId(0)), Scalar::Col(ColId(2)))
}

fn second_is_ten() -> Cond {
    Cond::Compare(Cmp::Eq, Scalar::Col(ColId(1)), Scalar::Lit(Value::Int(10)))
}

fn conds(alloc: Global, on: On) -> Result<Items<Cond>, NoMemory> {
    let mut conds = Items::new(alloc);
    match on {
        On::Keys => conds.push(first_columns(Cmp::Eq))?,
        On::KeysAndTen => {
            conds.push(first_columns(Cmp::Eq))?;
            conds.push(second_is_ten())?;
        }
        On::Less => conds.push(first_columns(Cmp::Lt))?,
    }
    Ok(conds)
}

fn check_join(
    rt: &impl Abort,
    alloc: Global,
    kind: JoinKind,
    on: On,
    wanted: &str,
) -> Result<(), NoMemory> {
    let left = Boxed::new(alloc, LocalTree::Temp { id: 1 })?;
    let right = Boxed::new(alloc, LocalTree::Temp { id: 2 })?;
    let conds = conds(alloc, on)?;
    let tree = LocalTree::Join {
        kind,
        conds,
        left,
        right,
    };
    check(rt, alloc, &tree, Node::Compute(1), wanted)
}

#[test]
fn keys_find_partners_and_null_finds_none(rt: HostRuntime) -> Result<(), Fail> {
    for (kind, wanted) in [
        (JoinKind::Inner, "1,10,1,20 1,10,1,21 1,11,1,20 1,11,1,21"),
        (
            JoinKind::Left,
            "1,10,1,20 1,10,1,21 1,11,1,20 1,11,1,21 2,13,N,N N,12,N,N",
        ),
        (
            JoinKind::Full,
            "1,10,1,20 1,10,1,21 1,11,1,20 1,11,1,21 2,13,N,N N,12,N,N N,N,3,23 N,N,N,22",
        ),
        (JoinKind::Semi, "1,10 1,11"),
        (JoinKind::Anti, "2,13 N,12"),
    ] {
        check_join(&rt, rt.alloc(), kind, On::Keys, wanted)?;
    }
    Ok(())
}

#[test]
fn each_condition_counts(rt: HostRuntime) -> Result<(), Fail> {
    for (kind, wanted) in [
        (JoinKind::Inner, "1,10,1,20 1,10,1,21"),
        (
            JoinKind::Left,
            "1,10,1,20 1,10,1,21 1,11,N,N 2,13,N,N N,12,N,N",
        ),
        (
            JoinKind::Full,
            "1,10,1,20 1,10,1,21 1,11,N,N 2,13,N,N N,12,N,N N,N,3,23 N,N,N,22",
        ),
        (JoinKind::Semi, "1,10"),
        (JoinKind::Anti, "1,11 2,13 N,12"),
    ] {
        check_join(&rt, rt.alloc(), kind, On::KeysAndTen, wanted)?;
    }
    Ok(())
}

#[test]
fn sides_are_joined_without_an_equality(rt: HostRuntime) -> Result<(), Fail> {
    for (kind, wanted) in [
        (JoinKind::Inner, "1,10,3,23 1,11,3,23 2,13,3,23"),
        (JoinKind::Left, "1,10,3,23 1,11,3,23 2,13,3,23 N,12,N,N"),
        (
            JoinKind::Full,
            "1,10,3,23 1,11,3,23 2,13,3,23 N,12,N,N N,N,1,20 N,N,1,21 N,N,N,22",
        ),
        (JoinKind::Semi, "1,10 1,11 2,13"),
        (JoinKind::Anti, "N,12"),
    ] {
        check_join(&rt, rt.alloc(), kind, On::Less, wanted)?;
    }
    Ok(())
}
