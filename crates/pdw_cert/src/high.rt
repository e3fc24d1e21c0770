//! The first bound that exceeds what the bounds allow to some way.

ghost use Rattle.std.specs.Prelude.{◌≡◌, ◌≤◌, ◌<◌, ◌^◌, [], ◌∷◌, Some, length, MatchBool};
ghost use Rattle.std.specs.List.{slice_get};
ghost use Rattle.pdw_cert.specs.TooHigh.{Exceeds, IsSearched, all_made, made_at};
ghost use Rattle.pdw_memo.specs.Memo.{IsMemo};
ghost use Rattle.pdw_move.specs.Cost.{AreInRange};
ghost use Rattle.pdw_plan.specs.Cost.{costs_in};
ghost use Rattle.pdw_ways.specs.Bounds.{AreSmall, AtMost, bound_in};
ghost use Rattle.pdw_ways.specs.Costing.{AgreeAt, adds_by};
ghost use Rattle.pdw_ways.specs.Ways.{Costs as CostsOf};

use crate::property::{property_at, property_count};
use pdw_groups::{Group, GroupId};
use pdw_move::Flow;
use pdw_plan::Problem;
use pdw_sizes::size_of;
use pdw_ways::{Kept, Made, Reckoning, least_offer};

/// A bound that exceeds the least sum of its ways.
#[derive(Clone, Copy)]
pub(crate) struct TooHigh {
    /// What has the bound.
    pub(crate) made: Made,
    pub(crate) bound: Option<u128>,
    /// The least sum of its ways.
    pub(crate) limit: u128,
}

fn exceeds(bound: Option<u128>, limit: u128) -> bool
    ensures { MatchBool result (Exceeds bound limit) (AtMost bound (Some limit)) }
{
    match bound {
        Some(bound) => limit < bound,
        None => true,
    }
}

// The bound of what is made, where it is too high.
fn too_high(kept: &Kept<'_>, reckoning: &Reckoning<'_>, made: Made) -> Option<TooHigh>
    requires small { AreSmall (bound_in kept.now.groups.now kept.now.lists.now) }
    requires rows { reckoning.now.flow.rows ≤ 1000000000000 }
    requires constants { AreInRange reckoning.now.constants.now }
    requires group { made.group.0 < length kept.now.groups.now }
    ensures { (costs : CostsOf) → AgreeAt costs made.group (adds_by reckoning.now.n reckoning.now.constants.now reckoning.now.flow) → IsSearched kept.now.groups.now costs (bound_in kept.now.groups.now kept.now.lists.now) (made ∷ []) result }
{
    let bound = kept.bound(made);
    let Some(offer) = least_offer(kept, reckoning, made) else {
        return None;
    };
    if exceeds(bound, offer.cost) {
        return Some(TooHigh {
            made,
            bound,
            limit: offer.cost,
        });
    }
    None
}

// The first of the bounds of a group that is too high.
fn first_in_group(
    kept: &Kept<'_>,
    reckoning: &Reckoning<'_>,
    number: GroupId,
    group: &Group,
) -> Option<TooHigh>
    requires small { AreSmall (bound_in kept.now.groups.now kept.now.lists.now) }
    requires rows { reckoning.now.flow.rows ≤ 1000000000000 }
    requires constants { AreInRange reckoning.now.constants.now }
    requires there { slice_get kept.now.groups.now number.0 ≡ Some group.now }
    ensures { (costs : CostsOf) → AgreeAt costs number (adds_by reckoning.now.n reckoning.now.constants.now reckoning.now.flow) → IsSearched kept.now.groups.now costs (bound_in kept.now.groups.now kept.now.lists.now) (made_at number group.now) result }
{
    let columns = group.interesting.as_slice();
    for place in 0..property_count(columns) {
        let made = Made {
            group: number,
            prop: property_at(columns, place),
        };
        if let Some(high) = too_high(kept, reckoning, made) {
            return Some(high);
        }
    }
    None
}

// What moves of the rows of a group are reckoned with.
fn reckoning_of<'a>(p: &Problem<'a>, number: GroupId) -> Reckoning<'a>
    requires group { number.0 < length p.now.memo.now.groups }
    requires constants { AreInRange p.now.constants.now }
    ensures agrees { (is : IsMemo p.now.memo.now) → AgreeAt (costs_in p.now.memo.now is p.now.book.now p.now.n p.now.constants.now) number (adds_by result.n result.constants.now result.flow) }
    ensures rows { result.flow.rows ≤ 1000000000000 }
    ensures constants { AreInRange result.constants.now }
{
    let _groups = p.memo.groups();
    p.book.keeps_ranges();
    let _nodes = p.n.get();
    let size = size_of(p.memo, number, p.book, p.n);
    Reckoning {
        flow: Flow {
            rows: size.rows,
            width: size.width,
        },
        n: p.n,
        constants: p.constants,
    }
}

/// The first bound, in the order of groups and of their properties, that exceeds the least sum of its ways; None exactly where
/// the bounds are valid. It takes no memory.
pub(crate) fn first_too_high(p: &Problem<'_>, kept: &Kept<'_>) -> Option<TooHigh>
    requires few { length kept.now.groups.now < 2 ^ 32 }
    requires constants { AreInRange p.now.constants.now }
    requires small { AreSmall (bound_in kept.now.groups.now kept.now.lists.now) }
    requires groups { kept.now.groups.now ≡ p.now.memo.now.groups }
    ensures { (is : IsMemo p.now.memo.now) → IsSearched kept.now.groups.now (costs_in p.now.memo.now is p.now.book.now p.now.n p.now.constants.now) (bound_in kept.now.groups.now kept.now.lists.now) (all_made kept.now.groups.now) result }
{
    for (place, group) in kept.groups.iter().enumerate() {
        let number = GroupId(place as u32);
        let reckoning = reckoning_of(p, number);
        if let Some(high) = first_in_group(kept, &reckoning, number, group) {
            return Some(high);
        }
    }
    None
}
