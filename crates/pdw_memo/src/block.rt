//! What a block adds after its leaves.

ghost use Rattle.std.specs.Prelude.{◌≡◌, ◌<◌, ◌≤◌, map, length, IfOk, OnOk};
ghost use Rattle.pdw_memo.specs.Building as spec;
ghost use Rattle.pdw_groups.specs.declared.block.Level.TheVariants as level;

use crate::building::{Building, tree_schema};
use pdw_algebra::{Tree, conds_copy};
use pdw_base::{ColId, NoMemory};
use pdw_catalog::Catalog;
use pdw_expr::Cond;
use pdw_groups::{BlockPart, GroupId, Level, Side, add_block};
use sqlite_items::Items;
use std::alloc::Global;

/// The own group of a leaf that was added last.
pub fn last_side(
    alloc: Global,
    building: &Building,
    leaf: &Tree,
    catalog: &Catalog,
) -> Result<Side, NoMemory>
    requires some { 0 < length building.now.groups }
    requires room { spec.HasRoom building.now 0 }
    ensures { IfOk result (λ side. side ≡ record { group = spec.last building.now; schema = spec.schema_of_tree catalog.now leaf.now }) }
{
    let schema = tree_schema(alloc, leaf, catalog)?;
    Ok(Side {
        group: building.last_group(),
        schema,
    })
}

fn leaf_groups(alloc: Global, sides: &[Side]) -> Result<Items<GroupId>, NoMemory>
    ensures { IfOk result (λ groups. groups ≡ map (λ side. side.group) sides.now) }
{
    let mut groups = Items::new(alloc);
    for side in sides {
        groups.push(side.group)?;
    }
    Ok(groups)
}

// A block that is joined as it is written.
fn block_part(alloc: Global, sides: &[Side], conds: &[Cond]) -> Result<BlockPart, NoMemory>
    ensures { IfOk result (λ part. part ≡ record { leaves = map (λ side. side.group) sides.now; conds = conds.now; level = level.Written }) }
{
    let leaves = leaf_groups(alloc, sides)?;
    let conds = conds_copy(alloc, conds)?;
    Ok(BlockPart {
        leaves,
        conds,
        level: Level::Written,
    })
}

/// Adds the groups of a block that is joined as it is written, after those of its leaves.
pub fn add_joins(
    alloc: Global,
    building: &mut Building,
    useful: &[ColId],
    sides: &[Side],
    conds: &[Cond],
) -> Result<(), NoMemory>
    requires few { length sides.now ≤ 10 }
    requires room { spec.HasRoom building.old 1 }
    ensures { OnOk result (building.new ≡ spec.with_block useful.now sides.now conds.now building.old) }
{
    let part = block_part(alloc, sides, conds)?;
    let block = building.blocks.len() as u32;
    let level = Level::Written;
    add_block(
        alloc,
        &mut building.groups,
        useful,
        block,
        level,
        sides,
        conds,
    )?;
    building.blocks.push(part)?;
    Ok(())
}
