//! What each set of a block's leaves has: its columns, and the conjuncts inside it.

ghost use Rattle.std.specs.Prelude.{◌≡◌, ◌++◌, ◌∷◌, [], ◌≤◌, ◌^◌, ◌&&◌, not, if◌then◌else◌, length, map, IfOk, OnOk};
ghost use Rattle.pdw_groups.specs.Level as level;
ghost use Rattle.pdw_groups.specs.Sets as spec;
ghost use Rattle.pdw_parts.specs.Part as part;

use crate::GroupId;
use crate::level::has_leaf;
use pdw_base::{ColId, Kind, NoMemory, Schema};
use pdw_expr::Cond;
use pdw_parts::inside_flags;
use sqlite_items::Items;
use std::alloc::Global;

/// A leaf of a block: its group and the schema of that.
#[derive(Drop)]
pub struct Side {
    pub group: GroupId,
    pub schema: Schema,
}

fn add_all(columns: &mut Vec<(ColId, Kind)>, more: &[(ColId, Kind)]) -> Result<(), NoMemory>
    ensures { OnOk result (columns.new.items ≡ columns.old.items ++ more.now) }
{
    for column in more {
        columns.push(*column)?;
    }
    Ok(())
}

fn add_if(
    columns: &mut Vec<(ColId, Kind)>,
    is_there: bool,
    more: &[(ColId, Kind)],
) -> Result<(), NoMemory>
    ensures { OnOk result (columns.new.items ≡ columns.old.items ++ (if is_there then more.now else [])) }
{
    if is_there {
        return add_all(columns, more);
    }
    Ok(())
}

/// The columns of a set of leaves.
pub fn part_columns(
    alloc: Global,
    mask: u32,
    sides: &[Side],
) -> Result<Vec<(ColId, Kind)>, NoMemory>
    requires { length sides.now ≤ 10 }
    ensures { IfOk result (λ columns. columns.items ≡ part.columns_in (level.set_of mask) (spec.schemas sides.now)) }
{
    let mut columns = Vec::new(alloc);
    for (leaf, side) in sides.iter().enumerate() {
        add_if(&mut columns, has_leaf(mask, leaf), side.schema.cols())?;
    }
    Ok(columns)
}

/// For each set of leaves and each conjunct, whether the conjunct lies inside the set.
pub fn all_inside(
    alloc: Global,
    sides: &[Side],
    conds: &[Cond],
) -> Result<Vec<Items<bool>>, NoMemory>
    requires { length sides.now ≤ 10 }
    ensures { IfOk result (λ all. all.items ≡ map (spec.flags (spec.schemas sides.now) conds.now) (level.below (2 ^ length sides.now))) }
{
    let mut all = Vec::new(alloc);
    for mask in 0..1u32 << sides.len() {
        let columns = part_columns(alloc, mask, sides)?;
        all.push(inside_flags(alloc, columns.as_slice(), conds)?)?;
    }
    Ok(all)
}

fn is_between(whole: bool, left: bool, right: bool) -> bool
    ensures { result ≡ (whole && (not left && not right)) }
{
    whole && !left && !right
}

fn push_if(
    alloc: Global,
    some: &mut Items<Cond>,
    is_kept: bool,
    conjunct: &Cond,
) -> Result<(), NoMemory>
    ensures { OnOk result (some.new ≡ some.old ++ (if is_kept then conjunct.now ∷ [] else [])) }
{
    if is_kept {
        some.push(conjunct.try_copy(alloc)?)?;
    }
    Ok(())
}

/// The conjuncts that lie inside a set and inside neither of its two parts.
pub fn between(
    alloc: Global,
    conds: &[Cond],
    whole: &[bool],
    left: &[bool],
    right: &[bool],
) -> Result<Items<Cond>, NoMemory>
    requires whole { length whole.now ≡ length conds.now }
    requires left { length left.now ≡ length conds.now }
    requires right { length right.now ≡ length conds.now }
    ensures { IfOk result (λ some. some ≡ spec.kept_between conds.now whole.now left.now right.now) }
{
    let mut some = Items::new(alloc);
    for place in 0..conds.len() {
        let is_kept = is_between(whole[place], left[place], right[place]);
        push_if(alloc, &mut some, is_kept, &conds[place])?;
    }
    Ok(some)
}
