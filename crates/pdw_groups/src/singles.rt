//! The second groups of a block's leaves, which have conjuncts inside them.

ghost use Rattle.std.specs.Prelude.{◌≡◌, ◌++◌, ◌∷◌, [], ◌+◌, ◌<◌, ◌≤◌, ◌^◌, length, IfOk, OnOk};
ghost use Rattle.pdw_groups.specs.Columns as columns;
ghost use Rattle.pdw_groups.specs.Sets as spec;
ghost use Rattle.pdw_groups.specs.declared.op.Op.TheVariants as op;

use crate::columns::interesting_in;
use crate::level::only;
use crate::sets::Side;
use crate::{Expr, Group, GroupId, GroupKey, Op};
use pdw_base::{ColId, NoMemory, Schema};
use pdw_expr::Cond;
use pdw_parts::conds_inside;
use sqlite_items::Items;
use std::alloc::Global;

/// A group with the interesting columns of its schema.
pub fn group_with(
    alloc: Global,
    useful: &[ColId],
    key: GroupKey,
    schema: Schema,
    exprs: Items<Expr>,
) -> Result<Group, NoMemory>
    ensures { IfOk result (λ group. group ≡ record { key = key; schema = schema; interesting = columns.interesting_in useful.now schema; exprs = exprs }) }
{
    let interesting = interesting_in(alloc, useful, schema.cols())?;
    Ok(Group {
        key,
        schema,
        interesting,
        exprs,
    })
}

fn filter_expr(alloc: Global, conds: Items<Cond>, child: GroupId) -> Result<Expr, NoMemory>
    ensures { IfOk result (λ expr. expr ≡ record { op = op.Filter conds; children = child ∷ [] }) }
{
    let children = Items::from_slice(alloc, &[child])?;
    Ok(Expr {
        op: Op::Filter { conds },
        children,
    })
}

// The group of a leaf filtered by conjuncts.
fn second_group(
    alloc: Global,
    useful: &[ColId],
    key: GroupKey,
    side: &Side,
    inside: Items<Cond>,
) -> Result<Group, NoMemory>
    ensures { IfOk result (λ group. group ≡ record { key = key; schema = side.now.schema; interesting = columns.interesting_in useful.now side.now.schema; exprs = record { op = op.Filter inside; children = side.now.group ∷ [] } ∷ [] }) }
{
    let mut exprs = Items::new(alloc);
    exprs.push(filter_expr(alloc, inside, side.group)?)?;
    let schema = side.schema.try_copy(alloc)?;
    group_with(alloc, useful, key, schema, exprs)
}

// Adds the second group of a leaf where conjuncts lie inside it, and answers the group of the leaf as a part by itself.
fn add_second(
    alloc: Global,
    groups: &mut Items<Group>,
    useful: &[ColId],
    key: GroupKey,
    side: &Side,
    inside: Items<Cond>,
) -> Result<GroupId, NoMemory>
    requires { length groups.old < 2 ^ 32 }
    ensures groups { OnOk result (groups.new ≡ groups.old ++ spec.second_if useful.now key side.now inside) }
    ensures single { IfOk result (λ single. single ≡ spec.kept_single (length groups.old) side.now inside) }
{
    if inside.is_empty() {
        return Ok(side.group);
    }
    let single = GroupId(groups.len() as u32);
    groups.push(second_group(alloc, useful, key, side, inside)?)?;
    Ok(single)
}

/// Adds the second groups of a block's leaves, and answers the group of each leaf as a part by itself.
pub fn add_seconds(
    alloc: Global,
    groups: &mut Items<Group>,
    useful: &[ColId],
    block: u32,
    sides: &[Side],
    conds: &[Cond],
) -> Result<Items<GroupId>, NoMemory>
    requires few { length sides.now ≤ 10 }
    requires room { length groups.old + length sides.now < 2 ^ 32 }
    ensures groups { OnOk result (groups.new ≡ groups.old ++ spec.kept_seconds conds.now useful.now block 0 sides.now) }
    ensures singles { IfOk result (λ singles. singles ≡ spec.kept_singles conds.now (length groups.old) sides.now) }
{
    let mut singles = Items::new(alloc);
    for (place, side) in sides.iter().enumerate() {
        let key = GroupKey::Part {
            block,
            leaves: only(place),
        };
        let inside = conds_inside(alloc, side.schema.cols(), conds)?;
        singles.push(add_second(alloc, groups, useful, key, side, inside)?)?;
    }
    Ok(singles)
}
