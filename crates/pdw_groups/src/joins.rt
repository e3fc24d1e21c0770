//! The joins by which a set of a block's leaves is made.

ghost use Rattle.std.specs.Prelude.{◌≡◌, ◌++◌, ◌∷◌, [], ◌<◌, ◌≤◌, ◌^◌, length, map, if◌then◌else◌, IfOk, OnOk};
ghost use Rattle.std.specs.Int.Bits.{bit_xor};
ghost use Rattle.std.specs.List.{AllByRecursion};
ghost use Rattle.pdw_parts.specs.Part.{chosen};
ghost use Rattle.pdw_expr.specs.declared.agg.JoinKind.TheVariants as kind;
ghost use Rattle.pdw_groups.specs.Block as block;
ghost use Rattle.pdw_groups.specs.Level as spec;
ghost use Rattle.pdw_groups.specs.Sets as kept;
ghost use Rattle.pdw_groups.specs.declared.op.Op.TheVariants as op;

use crate::level::{is_left, is_one};
use crate::sets::between;
use crate::{Expr, GroupId, Level, Op};
use pdw_base::NoMemory;
use pdw_expr::{Cond, JoinKind};
use sqlite_items::Items;
use std::alloc::Global;

/// The group of a set: that of its leaf where it has one, or else the next.
pub fn part_of(mask: u32, singles: &[GroupId], next: GroupId) -> GroupId
    requires few { length singles.now ≤ 10 }
    requires inside { mask < 2 ^ length singles.now }
    ensures { result ≡ block.one_or (chosen (spec.set_of mask) singles.now) next }
{
    if is_one(mask) {
        return singles[mask.trailing_zeros() as usize];
    }
    next
}

fn join_expr(
    alloc: Global,
    conds: Items<Cond>,
    left: GroupId,
    right: GroupId,
) -> Result<Expr, NoMemory>
    ensures { IfOk result (λ expr. expr ≡ record { op = op.Join kind.Inner conds; children = left ∷ right ∷ [] }) }
{
    let children = Items::from_slice(alloc, &[left, right])?;
    Ok(Expr {
        op: Op::Join {
            kind: JoinKind::Inner,
            conds,
        },
        children,
    })
}

// The join of a left part and of what is left of a set.
fn join_at(
    alloc: Global,
    mask: u32,
    left: u32,
    conds: &[Cond],
    insides: &[Items<bool>],
    parts: &[GroupId],
) -> Result<Expr, NoMemory>
    requires insides { AllByRecursion (λ flags. length flags ≡ length conds.now) insides.now }
    requires whole { mask < length insides.now }
    requires left { (left < length insides.now) × (left < length parts.now) }
    requires right { (bit_xor left mask < length insides.now) × (bit_xor left mask < length parts.now) }
    ensures { IfOk result (λ expr. expr ≡ kept.join_at conds.now insides.now parts.now mask left) }
{
    let right = left ^ mask;
    let on = between(
        alloc,
        conds,
        insides[mask as usize].as_slice(),
        insides[left as usize].as_slice(),
        insides[right as usize].as_slice(),
    )?;
    join_expr(alloc, on, parts[left as usize], parts[right as usize])
}

/// The joins by which a level makes a set, in rising order of their left parts.
pub fn joins(
    alloc: Global,
    level: Level,
    mask: u32,
    conds: &[Cond],
    insides: &[Items<bool>],
    parts: &[GroupId],
) -> Result<Items<Expr>, NoMemory>
    requires small { mask < 2 ^ 31 }
    requires insides { AllByRecursion (λ flags. length flags ≡ length conds.now) insides.now }
    requires whole { mask < length insides.now }
    requires parts { mask ≤ length parts.now }
    ensures { IfOk result (λ exprs. exprs ≡ map (kept.join_at conds.now insides.now parts.now mask) (spec.lefts level mask)) }
{
    let mut exprs = Items::new(alloc);
    for left in 0..mask {
        if is_left(level, mask, left) {
            exprs.push(join_at(alloc, mask, left, conds, insides, parts)?)?;
        }
    }
    Ok(exprs)
}
