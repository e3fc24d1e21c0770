//! The leaves of a block in the new memo.

ghost use Rattle.std.specs.Prelude.{◌≡◌, ◌+◌, ◌<◌, ◌^◌, length, map, if◌then◌else◌, IfOk};
ghost use Rattle.std.specs.List.{AllByRecursion, list_any};
ghost use Rattle.pdw_explore.specs.Grown as spec;
ghost use Rattle.pdw_groups.specs.Sets.{kept_singles};
ghost use Rattle.pdw_parts.specs.Part as part;

use crate::grown::Grown;
use crate::numbers::new_number;
use pdw_base::{ColId, Kind, NoMemory};
use pdw_expr::Cond;
use pdw_groups::{GroupId, Side};
use pdw_parts::is_inside;
use sqlite_items::Items;
use std::alloc::Global;

fn leaf_at(alloc: Global, grown: &Grown, leaf: GroupId) -> Result<Side, NoMemory>
    requires number { leaf.0 < length grown.now.numbers }
    requires group { (spec.new_number grown.now.numbers leaf).0 < length grown.now.groups }
    ensures { IfOk result (λ side. side ≡ spec.leaf_at grown.now leaf) }
{
    let group = new_number(grown.numbers.as_slice(), leaf);
    let schema = grown.groups.as_slice()[group.0 as usize]
        .schema
        .try_copy(alloc)?;
    Ok(Side { group, schema })
}

/// The leaves of a block by their new numbers.
pub fn leaves_at(alloc: Global, grown: &Grown, leaves: &[GroupId]) -> Result<Items<Side>, NoMemory>
    requires { AllByRecursion (λ leaf. (leaf.0 < length grown.now.numbers) × ((spec.new_number grown.now.numbers leaf).0 < length grown.now.groups)) leaves.now }
    ensures { IfOk result (λ sides. sides ≡ map (spec.leaf_at grown.now) leaves.now) }
{
    let mut sides = Items::new(alloc);
    for leaf in leaves {
        sides.push(leaf_at(alloc, grown, *leaf)?)?;
    }
    Ok(sides)
}

/// The number after that of the last leaf.
pub fn after_leaves(sides: &[Side]) -> u32
    requires { AllByRecursion (λ side. side.group.0 < 2 ^ 31) sides.now }
    ensures { result ≡ spec.after_leaves sides.now }
{
    let mut after = 0;
    for side in sides {
        after = side.group.0 + 1;
    }
    after
}

// Whether a conjunct lies inside some columns.
fn has_inside(columns: &[(ColId, Kind)], conds: &[Cond]) -> bool
    ensures { result ≡ list_any (part.is_inside columns.now) conds.now }
{
    conds.iter().any(|conjunct| is_inside(columns, conjunct))
}

// A leaf as a part by itself.
fn single(next: u32, has_second: bool, own: GroupId) -> GroupId
    ensures { result ≡ (if has_second then record { 0 = next } else own) }
{
    if has_second { GroupId(next) } else { own }
}

// How many second groups a leaf has.
fn second_count(has_second: bool) -> u32
    ensures { result ≡ (if has_second then 1 else 0) }
{
    if has_second { 1 } else { 0 }
}

/// Each leaf as a part by itself: where conjuncts lie inside it its second group, of which the first has the number `first`.
pub fn singles(
    alloc: Global,
    first: u32,
    sides: &[Side],
    conds: &[Cond],
) -> Result<Items<GroupId>, NoMemory>
    requires { first + length sides.now < 2 ^ 32 }
    ensures { IfOk result (λ singles. singles ≡ kept_singles conds.now first sides.now) }
{
    let mut next = first;
    let mut singles = Items::new(alloc);
    for side in sides {
        let has_second = has_inside(side.schema.cols(), conds);
        singles.push(single(next, has_second, side.group))?;
        next += second_count(has_second);
    }
    Ok(singles)
}
