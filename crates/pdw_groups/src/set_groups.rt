//! The groups of a block's sets of leaves.

ghost use Rattle.std.specs.Prelude.{◌≡◌, ◌++◌, ◌∷◌, [], ◌+◌, ◌<◌, ◌≤◌, ◌^◌, length, if◌then◌else◌, IfOk, OnOk};
ghost use Rattle.std.specs.List.{AllByRecursion};
ghost use Rattle.pdw_groups.specs.Level as sets;
ghost use Rattle.pdw_groups.specs.Sets as spec;

use crate::joins::{joins, part_of};
use crate::level::{has_set, only};
use crate::sets::{Side, all_inside, part_columns};
use crate::singles::group_with;
use crate::{Group, GroupId, GroupKey, Level};
use pdw_algebra::schema_over;
use pdw_base::{ColId, NoMemory};
use pdw_expr::Cond;
use sqlite_items::Items;
use std::alloc::Global;

// The group of a set.
fn set_group(
    alloc: Global,
    useful: &[ColId],
    block: u32,
    level: Level,
    mask: u32,
    sides: &[Side],
    conds: &[Cond],
    insides: &[Items<bool>],
    parts: &[GroupId],
) -> Result<Group, NoMemory>
    requires few { length sides.now ≤ 10 }
    requires small { mask < 2 ^ 31 }
    requires insides { AllByRecursion (λ flags. length flags ≡ length conds.now) insides.now }
    requires whole { mask < length insides.now }
    requires parts { mask ≤ length parts.now }
    ensures { IfOk result (λ group. group ≡ spec.set_with useful.now block level sides.now conds.now insides.now parts.now mask) }
{
    let columns = part_columns(alloc, mask, sides)?;
    let schema = schema_over(alloc, columns.as_slice())?;
    let exprs = joins(alloc, level, mask, conds, insides, parts)?;
    let key = GroupKey::Part {
        block,
        leaves: mask,
    };
    group_with(alloc, useful, key, schema, exprs)
}

// Adds the group of a set where the level has it.
fn add_set(
    alloc: Global,
    groups: &mut Items<Group>,
    useful: &[ColId],
    block: u32,
    level: Level,
    mask: u32,
    sides: &[Side],
    conds: &[Cond],
    insides: &[Items<bool>],
    parts: &[GroupId],
) -> Result<(), NoMemory>
    requires few { length sides.now ≤ 10 }
    requires small { mask < 2 ^ 31 }
    requires insides { AllByRecursion (λ flags. length flags ≡ length conds.now) insides.now }
    requires whole { mask < length insides.now }
    requires parts { mask ≤ length parts.now }
    ensures { OnOk result (groups.new ≡ groups.old ++ (if sets.has_set level mask then spec.set_with useful.now block level sides.now conds.now insides.now parts.now mask ∷ [] else [])) }
{
    if has_set(level, mask) {
        let group = set_group(
            alloc, useful, block, level, mask, sides, conds, insides, parts,
        )?;
        groups.push(group)?;
    }
    Ok(())
}

/// Adds the groups of the sets of leaves that a level has, in rising order of the sets.
pub fn add_sets(
    alloc: Global,
    groups: &mut Items<Group>,
    useful: &[ColId],
    block: u32,
    level: Level,
    sides: &[Side],
    conds: &[Cond],
    singles: &[GroupId],
) -> Result<(), NoMemory>
    requires few { length sides.now ≤ 10 }
    requires singles { length singles.now ≡ length sides.now }
    requires room { length groups.old + 2 ^ length sides.now < 2 ^ 32 }
    ensures { OnOk result (groups.new ≡ groups.old ++ spec.kept_sets useful.now block level sides.now conds.now singles.now (length groups.old) (2 ^ length sides.now)) }
{
    let insides = all_inside(alloc, sides, conds)?;
    let mut parts = Vec::new(alloc);
    for mask in 0..only(sides.len()) {
        let part = part_of(mask, singles, GroupId(groups.len() as u32));
        add_set(
            alloc,
            groups,
            useful,
            block,
            level,
            mask,
            sides,
            conds,
            insides.as_slice(),
            parts.as_slice(),
        )?;
        parts.push(part)?;
    }
    Ok(())
}
