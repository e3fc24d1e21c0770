//! Expressions over groups.

ghost use Rattle.std.specs.Prelude.{◌≡◌, ◌∷◌, [], IfOk};
ghost use Rattle.pdw_catalog.specs.Catalog.{table_named};
ghost use Rattle.pdw_groups.specs.Columns.{hash_in as hash_of, replicated_in};
ghost use Rattle.pdw_groups.specs.declared.op.Op.TheVariants as op;

use pdw_algebra::{aggs_copy, conds_copy, items_copy};
use pdw_base::{ColId, NoMemory, Str};
use pdw_catalog::Catalog;
use pdw_expr::{Agg, Cond, JoinKind, Scalar};
use pdw_groups::{Expr, GroupId, Op, hash_in, is_replicated};
use sqlite_items::Items;
use std::alloc::Global;

// An operator over children.
fn expr_over(alloc: Global, op: Op, children: Items<GroupId>) -> Result<Items<Expr>, NoMemory>
    ensures { IfOk result (λ exprs. exprs ≡ record { op = op; children = children } ∷ []) }
{
    let mut exprs = Items::new(alloc);
    exprs.push(Expr { op, children })?;
    Ok(exprs)
}

/// The scan of a table.
pub fn scan_expr(
    alloc: Global,
    table: &Str,
    alias: &Str,
    cols: &[(ColId, u32)],
    catalog: &Catalog,
) -> Result<Items<Expr>, NoMemory>
    ensures { IfOk result (λ exprs. exprs ≡ record { op = op.Scan table.now alias.now cols.now (hash_of (table_named table.now catalog.now) cols.now) (replicated_in (table_named table.now catalog.now)); children = [] } ∷ []) }
{
    let op = Op::Scan {
        table: table.try_copy(alloc)?,
        alias: alias.try_copy(alloc)?,
        cols: Items::from_slice(alloc, cols)?,
        hash: hash_in(catalog, table, cols),
        replicated: is_replicated(catalog, table),
    };
    expr_over(alloc, op, Items::new(alloc))
}

/// A filter of a group.
pub fn filter_expr(alloc: Global, conds: &[Cond], child: GroupId) -> Result<Items<Expr>, NoMemory>
    ensures { IfOk result (λ exprs. exprs ≡ record { op = op.Filter conds.now; children = child ∷ [] } ∷ []) }
{
    let children = Items::from_slice(alloc, &[child])?;
    let conds = conds_copy(alloc, conds)?;
    expr_over(alloc, Op::Filter { conds }, children)
}

/// A projection of a group.
pub fn project_expr(
    alloc: Global,
    items: &[(ColId, Option<Scalar>)],
    child: GroupId,
) -> Result<Items<Expr>, NoMemory>
    ensures { IfOk result (λ exprs. exprs ≡ record { op = op.Project items.now; children = child ∷ [] } ∷ []) }
{
    let children = Items::from_slice(alloc, &[child])?;
    let items = items_copy(alloc, items)?;
    expr_over(alloc, Op::Project { items }, children)
}

/// A join of two groups.
pub fn join_expr(
    alloc: Global,
    kind: JoinKind,
    conds: &[Cond],
    left: GroupId,
    right: GroupId,
) -> Result<Items<Expr>, NoMemory>
    ensures { IfOk result (λ exprs. exprs ≡ record { op = op.Join kind conds.now; children = left ∷ right ∷ [] } ∷ []) }
{
    let children = Items::from_slice(alloc, &[left, right])?;
    let conds = conds_copy(alloc, conds)?;
    expr_over(alloc, Op::Join { kind, conds }, children)
}

/// The partial rows of a group.
pub fn partial_expr(
    alloc: Global,
    keys: &[ColId],
    aggs: &[Agg],
    child: GroupId,
) -> Result<Items<Expr>, NoMemory>
    ensures { IfOk result (λ exprs. exprs ≡ record { op = op.Partial keys.now aggs.now; children = child ∷ [] } ∷ []) }
{
    let children = Items::from_slice(alloc, &[child])?;
    let keys = Items::from_slice(alloc, keys)?;
    let aggs = aggs_copy(alloc, aggs)?;
    expr_over(alloc, Op::Partial { keys, aggs }, children)
}

// A grouping of the rows of a group.
fn group_expr(
    alloc: Global,
    keys: &[ColId],
    aggs: &[Agg],
    child: GroupId,
) -> Result<Items<Expr>, NoMemory>
    ensures { IfOk result (λ exprs. exprs ≡ record { op = op.GroupBy keys.now aggs.now; children = child ∷ [] } ∷ []) }
{
    let children = Items::from_slice(alloc, &[child])?;
    let keys = Items::from_slice(alloc, keys)?;
    let aggs = aggs_copy(alloc, aggs)?;
    expr_over(alloc, Op::GroupBy { keys, aggs }, children)
}

// The whole groups of partial rows.
fn final_expr(
    alloc: Global,
    keys: &[ColId],
    aggs: &[Agg],
    child: GroupId,
) -> Result<Items<Expr>, NoMemory>
    ensures { IfOk result (λ exprs. exprs ≡ record { op = op.Final keys.now aggs.now; children = child ∷ [] } ∷ []) }
{
    let children = Items::from_slice(alloc, &[child])?;
    let keys = Items::from_slice(alloc, keys)?;
    let aggs = aggs_copy(alloc, aggs)?;
    expr_over(alloc, Op::Final { keys, aggs }, children)
}

/// A grouping of the rows of a group, and that of their partial rows.
pub fn grouping_exprs(
    alloc: Global,
    keys: &[ColId],
    aggs: &[Agg],
    child: GroupId,
    partial: GroupId,
) -> Result<Items<Expr>, NoMemory>
    ensures { IfOk result (λ exprs. exprs ≡ record { op = op.GroupBy keys.now aggs.now; children = child ∷ [] } ∷ record { op = op.Final keys.now aggs.now; children = partial ∷ [] } ∷ []) }
{
    let mut exprs = group_expr(alloc, keys, aggs, child)?;
    exprs.append(final_expr(alloc, keys, aggs, partial)?)?;
    Ok(exprs)
}
