//! The local trees of operators.

ghost use Rattle.std.specs.Prelude.{◌≡◌, [], ◌∷◌, IfOk};
ghost use Rattle.pdw_algebra.specs.declared.local.LocalTree.TheVariants as tree;
ghost use Rattle.pdw_dsql.specs.Trees as spec;

use pdw_algebra::{LocalTree, aggs_copy, conds_copy, items_copy};
use pdw_base::{ColId, NoMemory, Str};
use pdw_expr::{Agg, Cond, JoinKind, Scalar};
use pdw_memo::Op;
use sqlite_items::{Boxed, Items};
use std::alloc::Global;

fn base_tree(alloc: Global, table: &Str, cols: &[(ColId, u32)]) -> Result<LocalTree, NoMemory>
    ensures { IfOk result (λ made. made ≡ tree.Base table.now cols.now) }
{
    let table = table.try_copy(alloc)?;
    let cols = Items::from_slice(alloc, cols)?;
    Ok(LocalTree::Base { table, cols })
}

fn filter_tree(
    alloc: Global,
    conds: &[Cond],
    child: Boxed<LocalTree>,
) -> Result<LocalTree, NoMemory>
    ensures { IfOk result (λ made. made ≡ tree.Filter conds.now child) }
{
    let conds = conds_copy(alloc, conds)?;
    Ok(LocalTree::Filter { conds, child })
}

fn project_tree(
    alloc: Global,
    items: &[(ColId, Option<Scalar>)],
    child: Boxed<LocalTree>,
) -> Result<LocalTree, NoMemory>
    ensures { IfOk result (λ made. made ≡ tree.Project items.now child) }
{
    let items = items_copy(alloc, items)?;
    Ok(LocalTree::Project { items, child })
}

fn join_tree(
    alloc: Global,
    kind: JoinKind,
    conds: &[Cond],
    left: Boxed<LocalTree>,
    right: Boxed<LocalTree>,
) -> Result<LocalTree, NoMemory>
    ensures { IfOk result (λ made. made ≡ tree.Join kind conds.now left right) }
{
    let conds = conds_copy(alloc, conds)?;
    Ok(LocalTree::Join {
        kind,
        conds,
        left,
        right,
    })
}

fn group_tree(
    alloc: Global,
    keys: &[ColId],
    aggs: &[Agg],
    child: Boxed<LocalTree>,
) -> Result<LocalTree, NoMemory>
    ensures { IfOk result (λ made. made ≡ tree.GroupBy keys.now aggs.now child) }
{
    let keys = Items::from_slice(alloc, keys)?;
    let aggs = aggs_copy(alloc, aggs)?;
    Ok(LocalTree::GroupBy { keys, aggs, child })
}

fn partial_tree(
    alloc: Global,
    keys: &[ColId],
    aggs: &[Agg],
    child: Boxed<LocalTree>,
) -> Result<LocalTree, NoMemory>
    ensures { IfOk result (λ made. made ≡ tree.Partial keys.now aggs.now child) }
{
    let keys = Items::from_slice(alloc, keys)?;
    let aggs = aggs_copy(alloc, aggs)?;
    Ok(LocalTree::Partial { keys, aggs, child })
}

fn final_tree(
    alloc: Global,
    keys: &[ColId],
    aggs: &[Agg],
    child: Boxed<LocalTree>,
) -> Result<LocalTree, NoMemory>
    ensures { IfOk result (λ made. made ≡ tree.Final keys.now aggs.now child) }
{
    let keys = Items::from_slice(alloc, keys)?;
    let aggs = aggs_copy(alloc, aggs)?;
    Ok(LocalTree::Final { keys, aggs, child })
}

// ---- by the number of children

/// The tree of an operator without child, which is a scan.
pub(crate) fn leaf_tree(alloc: Global, op: &Op) -> Result<LocalTree, NoMemory>
    requires { spec.arity op.now ≡ 0 }
    ensures { IfOk result (λ made. made ≡ spec.local_of op.now []) }
{
    match op {
        Op::Scan { table, cols, .. } => base_tree(alloc, table, cols.as_slice()),
        _ => unreachable!(),
    }
}

/// The tree of an operator over the tree of its child.
pub(crate) fn unary_tree(
    alloc: Global,
    op: &Op,
    child: Boxed<LocalTree>,
) -> Result<LocalTree, NoMemory>
    requires { spec.arity op.now ≡ 1 }
    ensures { IfOk result (λ made. made ≡ spec.local_of op.now (child ∷ [])) }
{
    match op {
        Op::Filter { conds } => filter_tree(alloc, conds.as_slice(), child),
        Op::Project { items } => project_tree(alloc, items.as_slice(), child),
        Op::GroupBy { keys, aggs } => group_tree(alloc, keys.as_slice(), aggs.as_slice(), child),
        Op::Partial { keys, aggs } => partial_tree(alloc, keys.as_slice(), aggs.as_slice(), child),
        Op::Final { keys, aggs } => final_tree(alloc, keys.as_slice(), aggs.as_slice(), child),
        _ => unreachable!(),
    }
}

/// The tree of an operator over the trees of its two children: a join.
pub(crate) fn binary_tree(
    alloc: Global,
    op: &Op,
    left: Boxed<LocalTree>,
    right: Boxed<LocalTree>,
) -> Result<LocalTree, NoMemory>
    requires { spec.arity op.now ≡ 2 }
    ensures { IfOk result (λ made. made ≡ spec.local_of op.now (left ∷ right ∷ [])) }
{
    match op {
        Op::Join { kind, conds } => join_tree(alloc, *kind, conds.as_slice(), left, right),
        _ => unreachable!(),
    }
}
