//! The blocks of the new memo.

ghost use Rattle.std.specs.Prelude.{◌≡◌, ◌<◌, length, map, reverse, IfOk};
ghost use Rattle.std.specs.List.{AllByRecursion};
ghost use Rattle.pdw_explore.specs.Grown as spec;

use crate::numbers::renumber;
use pdw_base::NoMemory;
use pdw_groups::{BlockPart, GroupId, Level};
use sqlite_items::Items;
use std::alloc::Global;

fn moved_block(mut part: BlockPart, numbers: &[GroupId], level: Level) -> BlockPart
    requires { AllByRecursion (λ leaf. leaf.0 < length numbers.now) part.leaves }
    ensures { result ≡ spec.moved_block numbers.now level part }
{
    renumber(&mut part.leaves, numbers);
    part.level = level;
    part
}

/// The blocks with the new numbers of their leaves and their new levels, from the blocks in the other direction.
#[tactic(auto, using(crate::proofs::Loops::reverse_pop, crate::proofs::Loops::length_pop))]
pub fn moved_blocks(
    alloc: Global,
    mut blocks: Items<BlockPart>,
    numbers: &[GroupId],
    levels: &[Level],
) -> Result<Items<BlockPart>, NoMemory>
    requires leaves { AllByRecursion (λ block. AllByRecursion (λ leaf. leaf.0 < length numbers.now) block.leaves) (reverse blocks) }
    requires each { length levels.now ≡ length blocks }
    ensures { IfOk result (λ moved. moved ≡ spec.moved_blocks numbers.now levels.now (reverse blocks)) }
{
    let mut moved = Items::new(alloc);
    for level in levels {
        if let Some(part) = blocks.pop() {
            moved.push(moved_block(part, numbers, *level))?;
        }
    }
    Ok(moved)
}
