//! How far each block is explored.

ghost use Rattle.std.specs.Prelude.{◌≡◌, ◌≤◌, length, IfOk};
ghost use Rattle.std.specs.List.{AllByRecursion};
ghost use Rattle.pdw_explore.specs.Levels as spec;

use pdw_base::NoMemory;
use pdw_groups::{BlockPart, Level};
use sqlite_items::Items;
use std::alloc::Global;

// How many ordered pairs of disjoint parts that are not empty a block has.
fn full_count(leaves: usize) -> u32
    requires { leaves ≤ 10 }
    ensures { result ≡ spec.full_count leaves }
{
    3u32.pow(leaves as u32) + 1 - 2 * (1 << leaves)
}

// How many of these pairs have a part of one leaf.
fn linear_count(leaves: usize) -> u32
    requires { leaves ≤ 10 }
    ensures { result ≡ spec.linear_count leaves }
{
    if leaves < 2 {
        return 0;
    }
    let leaves = leaves as u32;
    leaves * (1 << leaves) - (2 * leaves + leaves * (leaves - 1))
}

fn level_within(left: u32, leaves: usize) -> Level
    requires { leaves ≤ 10 }
    ensures { result ≡ spec.level_within left leaves }
{
    if full_count(leaves) <= left {
        Level::Full
    } else if linear_count(leaves) <= left {
        Level::Linear
    } else {
        Level::Written
    }
}

// What a level takes of the budget.
fn taken(level: Level, leaves: usize) -> u32
    requires { leaves ≤ 10 }
    ensures { result ≡ spec.taken level leaves }
{
    match level {
        Level::Full => full_count(leaves),
        Level::Linear => linear_count(leaves),
        Level::Written => 0,
    }
}

/// The level of each block within a budget of join expressions: blocks in rising number take the first of Full and Linear
/// whose joins fit what is left of the budget, or else Written, which takes nothing of it.
pub fn levels(alloc: Global, budget: u32, blocks: &[BlockPart]) -> Result<Items<Level>, NoMemory>
    requires { AllByRecursion (λ block. length block.leaves ≤ 10) blocks.now }
    ensures { IfOk result (λ levels. levels ≡ spec.level_list budget (spec.leaf_counts blocks.now)) }
{
    let mut left = budget;
    let mut levels = Items::new(alloc);
    for block in blocks {
        let leaves = block.leaves.len();
        let level = level_within(left, leaves);
        levels.push(level)?;
        left -= taken(level, leaves);
    }
    Ok(levels)
}
