//! The groups of `SELECT a, b FROM l LEFT JOIN r ON a = b`, where l is placed by the hash of a and r by that of b: the
//! scans 0 and 1, the join 2 and the root 3.

use pdw_base::{ColId, Kind, Schema, Str};
use pdw_expr::{Cmp, Cond, JoinKind, Scalar};
use pdw_groups::{Expr, Group, GroupId, GroupKey, Op};
use sqlite_items::Items;
use std::alloc::Global;
use std::test::Fail;

/// The column of l.
pub const A: ColId = ColId(0);

/// The column of r.
pub const B: ColId = ColId(1);

fn schema_of(alloc: Global, columns: &[ColId]) -> Result<Schema, Fail> {
    let mut cols = Vec::new(alloc);
    for column in columns {
        cols.push((*column, Kind::Int))?;
    }
    match Schema::new(cols) {
        Some(schema) => Ok(schema),
        None => Err("columns that do not rise")?,
    }
}

// The group of these expressions.
fn group_of(
    alloc: Global,
    number: u32,
    columns: &[ColId],
    exprs: Items<Expr>,
) -> Result<Group, Fail> {
    let interesting = Items::from_slice(alloc, columns)?;
    let schema = schema_of(alloc, columns)?;
    Ok(Group {
        key: GroupKey::Whole(number),
        schema,
        interesting,
        exprs,
    })
}

/// The scan of a table by the hash of its column.
pub fn scan_group(alloc: Global, number: u32, table: &str, column: ColId) -> Result<Group, Fail> {
    let mut exprs = Items::new(alloc);
    let name = Str::from_text(alloc, table)?;
    let alias = Str::from_text(alloc, table)?;
    let cols = Items::from_slice(alloc, &[(column, 0)])?;
    exprs.push(Expr {
        op: Op::Scan {
            table: name,
            alias,
            cols,
            hash: Some(column),
            replicated: false,
        },
        children: Items::new(alloc),
    })?;
    group_of(alloc, number, &[column], exprs)
}

fn join_group(alloc: Global) -> Result<Group, Fail> {
    let mut exprs = Items::new(alloc);
    let children = Items::from_slice(alloc, &[GroupId(0), GroupId(1)])?;
    let mut conds = Items::new(alloc);
    conds.push(Cond::Compare(Cmp::Eq, Scalar::Col(A), Scalar::Col(B)))?;
    exprs.push(Expr {
        op: Op::Join {
            kind: JoinKind::Left,
            conds,
        },
        children,
    })?;
    group_of(alloc, 2, &[A, B], exprs)
}

fn root_group(alloc: Global) -> Result<Group, Fail> {
    let mut exprs = Items::new(alloc);
    let children = Items::from_slice(alloc, &[GroupId(2)])?;
    let mut items = Items::new(alloc);
    items.push((A, None))?;
    items.push((B, None))?;
    exprs.push(Expr {
        op: Op::Project { items },
        children,
    })?;
    group_of(alloc, 3, &[A, B], exprs)
}

/// The groups of the join.
pub fn join_groups(alloc: Global) -> Result<Items<Group>, Fail> {
    let mut groups = Items::new(alloc);
    groups.push(scan_group(alloc, 0, "l", A)?)?;
    groups.push(scan_group(alloc, 1, "r", B)?)?;
    groups.push(join_group(alloc)?)?;
    groups.push(root_group(alloc)?)?;
    Ok(groups)
}
