use crate::support::check;
use pdw_algebra::LocalTree;
use pdw_base::{ColId, NoMemory, Node, Str, Value};
use pdw_expr::{Agg, AggKind, Cmp, Cond, Scalar};
use sqlite_items::{Boxed, Items};
use std::alloc::Global;
use std::test::Fail;

fn keys(alloc: Global) -> Result<Items<ColId>, NoMemory> {
    let mut keys = Items::new(alloc);
    keys.push(ColId(0))?;
    Ok(keys)
}

// The number of rows, and the sum of their second column.
fn aggs(alloc: Global) -> Result<Items<Agg>, NoMemory> {
    let mut aggs = Items::new(alloc);
    aggs.push(Agg {
        kind: AggKind::CountStar,
        arg: None,
        out: ColId(4),
    })?;
    aggs.push(Agg {
        kind: AggKind::Sum,
        arg: Some(Scalar::Col(ColId(1))),
        out: ColId(5),
    })?;
    Ok(aggs)
}

fn partial(alloc: Global) -> Result<LocalTree, NoMemory> {
    let child = Boxed::new(alloc, LocalTree::Temp { id: 1 })?;
    let keys = keys(alloc)?;
    let aggs = aggs(alloc)?;
    Ok(LocalTree::Partial { keys, aggs, child })
}

#[test]
fn null_is_a_key_of_its_own(rt: HostRuntime) -> Result<(), Fail> {
    let alloc = rt.alloc();
    let child = Boxed::new(alloc, LocalTree::Temp { id: 1 })?;
    let keys = keys(alloc)?;
    let aggs = aggs(alloc)?;
    let tree = LocalTree::GroupBy { keys, aggs, child };
    check(&rt, alloc, &tree, Node::Compute(1), "1,2,21 2,1,13 N,1,12")?;
    check(&rt, alloc, &tree, Node::Compute(0), "")?;
    Ok(())
}

#[test]
fn without_keys_no_row_is_one_group(rt: HostRuntime) -> Result<(), Fail> {
    let alloc = rt.alloc();
    let child = Boxed::new(alloc, LocalTree::Temp { id: 1 })?;
    let aggs = aggs(alloc)?;
    let keys = Items::new(alloc);
    let tree = LocalTree::GroupBy { keys, aggs, child };
    check(&rt, alloc, &tree, Node::Compute(0), "0,N")?;
    check(&rt, alloc, &tree, Node::Compute(1), "4,46")?;
    Ok(())
}

#[test]
fn partial_rows_keep_wide_numbers(rt: HostRuntime) -> Result<(), Fail> {
    let tree = partial(rt.alloc())?;
    check(
        &rt,
        rt.alloc(),
        &tree,
        Node::Compute(1),
        "1,w2,w21 2,w1,w13 N,w1,w12",
    )?;
    Ok(())
}

#[test]
fn partial_rows_are_finished(rt: HostRuntime) -> Result<(), Fail> {
    let alloc = rt.alloc();
    let child = Boxed::new(alloc, partial(alloc)?)?;
    let keys = keys(alloc)?;
    let aggs = aggs(alloc)?;
    let tree = LocalTree::Final { keys, aggs, child };
    check(&rt, alloc, &tree, Node::Compute(1), "1,2,21 2,1,13 N,1,12")?;
    Ok(())
}

fn is(c: u16, op: Cmp, number: i64) -> Cond {
    Cond::Compare(op, Scalar::Col(ColId(c)), Scalar::Lit(Value::Int(number)))
}

#[test]
fn a_filter_tests_each_condition(rt: HostRuntime) -> Result<(), Fail> {
    let alloc = rt.alloc();
    let child = Boxed::new(alloc, LocalTree::Temp { id: 1 })?;
    let mut conds = Items::new(alloc);
    conds.push(is(0, Cmp::Eq, 1))?;
    conds.push(is(1, Cmp::Lt, 11))?;
    let tree = LocalTree::Filter { conds, child };
    check(&rt, alloc, &tree, Node::Compute(1), "1,10")?;
    Ok(())
}

#[test]
fn items_pass_on_columns_and_make_new_ones(rt: HostRuntime) -> Result<(), Fail> {
    let alloc = rt.alloc();
    let child = Boxed::new(alloc, LocalTree::Temp { id: 1 })?;
    let second = Boxed::new(alloc, Scalar::Col(ColId(1)))?;
    let mut items = Items::new(alloc);
    items.push((ColId(6), Some(Scalar::Neg(second))))?;
    items.push((ColId(0), None))?;
    let tree = LocalTree::Project { items, child };
    check(
        &rt,
        alloc,
        &tree,
        Node::Compute(1),
        "1,-10 1,-11 2,-13 N,-12",
    )?;
    Ok(())
}

#[test]
fn temporary_tables_are_numbered_from_1(rt: HostRuntime) -> Result<(), Fail> {
    for (id, node, wanted) in [
        (1, Node::Control, "7,8"),
        (2, Node::Compute(1), "1,20 1,21 3,23 N,22"),
        (2, Node::Compute(0), ""),
        (2, Node::Compute(2), ""),
        (0, Node::Compute(1), ""),
        (3, Node::Compute(1), ""),
    ] {
        let tree = LocalTree::Temp { id };
        check(&rt, rt.alloc(), &tree, node, wanted)?;
    }
    Ok(())
}

#[test]
fn an_unknown_table_has_no_rows(rt: HostRuntime) -> Result<(), Fail> {
    let alloc = rt.alloc();
    let mut cols = Items::new(alloc);
    cols.push((ColId(0), 0))?;
    let tree = LocalTree::Base {
        table: Str::from_text(alloc, "t")?,
        cols,
    };
    check(&rt, alloc, &tree, Node::Compute(0), "")?;
    Ok(())
}
