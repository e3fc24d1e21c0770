//! The groups of the new memo, as the written ones are gone through.

ghost use Rattle.std.specs.Prelude.{◌≡◌, ◌<◌, ◌≤◌, ◌^◌, ◌-◌, [], length, reverse, IfOk, OnOk};
ghost use Rattle.std.specs.List.{AllByRecursion};
ghost use Rattle.pdw_explore.specs.Grown as spec;

use crate::leaves::{after_leaves, leaves_at, singles};
use crate::numbers::renumber_exprs;
use pdw_base::{ColId, NoMemory};
use pdw_groups::{BlockPart, Group, GroupId, GroupKey, Level, add_sets, is_several};
use sqlite_items::Items;
use std::alloc::Global;

/// The groups so far, and the new number of each written group that was gone through. That of a set that was left out is of
/// no group in particular.
#[derive(Drop)]
pub struct Grown {
    pub groups: Items<Group>,
    pub numbers: Items<GroupId>,
}

// The number of the last of some groups.
fn last_of(groups: &[Group]) -> GroupId
    requires { length groups.now ≤ 2 ^ 32 }
    ensures { result ≡ spec.last_of groups.now }
{
    GroupId(groups.len().saturating_sub(1) as u32)
}

// Adds a group with the new numbers of its children.
fn stay(grown: &mut Grown, mut group: Group) -> Result<(), NoMemory>
    requires { spec.CanStay grown.old group }
    ensures { OnOk result (grown.new ≡ spec.stays grown.old group) }
{
    renumber_exprs(&mut group.exprs, grown.numbers.as_slice())?;
    grown.numbers.push(GroupId(grown.groups.len() as u32))?;
    grown.groups.push(group)?;
    Ok(())
}

fn leave_out(grown: &mut Grown) -> Result<(), NoMemory>
    requires { length grown.old.groups < 2 ^ 31 }
    ensures { OnOk result (grown.new ≡ spec.left_out grown.old) }
{
    let last = last_of(grown.groups.as_slice());
    grown.numbers.push(last)?;
    Ok(())
}

// Adds the sets of a block at a level.
fn explore_block(
    alloc: Global,
    grown: &mut Grown,
    useful: &[ColId],
    block: u32,
    level: Level,
    part: &BlockPart,
) -> Result<(), NoMemory>
    requires few { length part.now.leaves ≤ 10 }
    requires leaves { AllByRecursion (λ leaf. (leaf.0 < length grown.old.numbers) × ((spec.new_number grown.old.numbers leaf).0 < length grown.old.groups)) part.now.leaves }
    requires room { length grown.old.groups < 2 ^ 31 }
    ensures { OnOk result (grown.new ≡ spec.explored useful.now block level part.now grown.old) }
{
    let sides = leaves_at(alloc, grown, part.leaves.as_slice())?;
    let conds = part.conds.as_slice();
    let first = after_leaves(sides.as_slice());
    let singles = singles(alloc, first, sides.as_slice(), conds)?;
    add_sets(
        alloc,
        &mut grown.groups,
        useful,
        block,
        level,
        sides.as_slice(),
        conds,
        singles.as_slice(),
    )?;
    let last = last_of(grown.groups.as_slice());
    grown.numbers.push(last)?;
    Ok(())
}

// Whether a set has all the leaves of its block.
fn is_whole(part: &BlockPart, leaves: u32) -> bool
    requires { length part.now.leaves ≤ 10 }
    ensures { result ≡ spec.is_whole part.now leaves }
{
    leaves as u64 + 1 == 1 << part.leaves.len()
}

// Goes past the group of a set: in the place of the whole block stand the sets of its level.
fn grow_set(
    alloc: Global,
    grown: &mut Grown,
    useful: &[ColId],
    block: u32,
    leaves: u32,
    blocks: &[BlockPart],
    levels: &[Level],
) -> Result<(), NoMemory>
    requires { spec.CanExplore blocks.now levels.now grown.old block }
    ensures { OnOk result (grown.new ≡ spec.set_grown blocks.now levels.now grown.old useful.now block leaves) }
{
    let part = &blocks[block as usize];
    if is_whole(part, leaves) {
        return explore_block(alloc, grown, useful, block, levels[block as usize], part);
    }
    leave_out(grown)
}

// Goes past a written group.
fn grow(
    alloc: Global,
    grown: &mut Grown,
    group: Group,
    blocks: &[BlockPart],
    levels: &[Level],
) -> Result<(), NoMemory>
    requires { spec.CanGrowBy blocks.now levels.now grown.old group group.key }
    ensures { OnOk result (grown.new ≡ spec.grown_with blocks.now levels.now grown.old group) }
{
    if let GroupKey::Part { block, leaves } = group.key {
        if is_several(leaves) {
            let useful = group.interesting.as_slice();
            return grow_set(alloc, grown, useful, block, leaves, blocks, levels);
        }
    }
    stay(grown, group)
}

/// Goes past written groups, of which the first is the last of those passed.
#[tactic(auto, using(crate::proofs::Loops::reverse_pop, crate::proofs::Loops::length_pop))]
pub fn grow_all(
    alloc: Global,
    mut groups: Items<Group>,
    blocks: &[BlockPart],
    levels: &[Level],
) -> Result<Grown, NoMemory>
    requires { spec.CanGrow blocks.now levels.now spec.nothing (reverse groups) }
    ensures { IfOk result (λ grown. grown ≡ spec.grown_all blocks.now levels.now spec.nothing (reverse groups)) }
{
    let mut grown = Grown {
        groups: Items::new(alloc),
        numbers: Items::new(alloc),
    };
    while let Some(group) = groups.pop() {
        grow(alloc, &mut grown, group, blocks, levels)?;
    }
    Ok(grown)
}
