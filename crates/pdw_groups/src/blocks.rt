//! The groups of a block.

ghost use Rattle.std.specs.Prelude.{◌≡◌, ◌++◌, ◌+◌, ◌<◌, ◌≤◌, ◌^◌, length, OnOk};
ghost use Rattle.pdw_groups.specs.Sets as spec;

use crate::set_groups::add_sets;
use crate::sets::Side;
use crate::singles::add_seconds;
use crate::{Group, Level};
use pdw_base::{ColId, NoMemory};
use pdw_expr::Cond;
use sqlite_items::Items;
use std::alloc::Global;

/// Adds the groups of a block at a level, after those of its leaves: the second groups of leaves with conjuncts inside them,
/// and those of sets of leaves.
pub fn add_block(
    alloc: Global,
    groups: &mut Items<Group>,
    useful: &[ColId],
    block: u32,
    level: Level,
    sides: &[Side],
    conds: &[Cond],
) -> Result<(), NoMemory>
    requires few { length sides.now ≤ 10 }
    requires room { length groups.old + (length sides.now + 2 ^ length sides.now) < 2 ^ 32 }
    ensures { OnOk result (groups.new ≡ groups.old ++ spec.kept_block useful.now block level sides.now conds.now (length groups.old)) }
{
    let singles = add_seconds(alloc, groups, useful, block, sides, conds)?;
    add_sets(
        alloc,
        groups,
        useful,
        block,
        level,
        sides,
        conds,
        singles.as_slice(),
    )
}
