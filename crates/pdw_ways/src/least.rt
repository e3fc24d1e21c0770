//! The cheapest way to make the rows of a group under a property, by the bounds that are kept.

ghost use Rattle.std.specs.Prelude.{◌≡◌, ◌≤◌};
ghost use Rattle.std.specs.List.{slice_get};
ghost use Rattle.pdw_groups.specs.declared.group.Group.{Group as GroupValue};
ghost use Rattle.pdw_groups.specs.declared.key.GroupId.{GroupId as Number};
ghost use Rattle.pdw_move.specs.Cost.{AreInRange};
ghost use Rattle.pdw_move.specs.declared.kinds.Prop.{Prop as Property};
ghost use Rattle.pdw_ways.specs.Bounds.{AreSmall, IsSmall, bound_by, bound_in, row_bound, sum_of};
ghost use Rattle.pdw_ways.specs.Costing.{AgreeAt, adds_by};
ghost use Rattle.pdw_ways.specs.Offers.{Best, IsInnerWay, IsLocalWay, IsWay};
ghost use Rattle.pdw_ways.specs.Search.{inner_within as the_inner, local_within as the_local};
ghost use Rattle.pdw_ways.specs.Ways.{Costs};

use crate::offer::cheaper;
use crate::{Kept, Made, Offer, Reckoning, Row};
use pdw_groups::Group;
use pdw_move::Prop;
use pdw_rules::may_have;
use sqlite_items::at;

fn local_within(kept: &Kept<'_>, group: &Group, wanted: Prop) -> Option<Offer>
    requires small { AreSmall (bound_in kept.now.groups.now kept.now.lists.now) }
    ensures { result ≡ the_local (bound_in kept.now.groups.now kept.now.lists.now) kept.now.groups.now group.now wanted }
{
    if may_have(group.interesting.as_slice(), wanted) {
        kept.of_exprs(wanted, group.exprs.as_slice())
    } else {
        None
    }
}

/// The cheapest scan or operator of a group that gives its rows under the wanted property, by the bounds that are kept for
/// its children. None where each sum is unreachable.
pub fn local_offer(kept: &Kept<'_>, group: &Group, wanted: Prop) -> Option<Offer>
    requires small { AreSmall (bound_in kept.now.groups.now kept.now.lists.now) }
    ensures { (costs : Costs) (number : Number) → Best (IsLocalWay group.now wanted) (sum_of costs (bound_in kept.now.groups.now kept.now.lists.now) number) result }
{
    local_within(kept, group, wanted)
}

fn inner_within(row: &Row<'_>, reckoning: &Reckoning<'_>, wanted: Prop) -> Option<Offer>
    requires small { (p : Property) → IsSmall (bound_by row.now.group.now.interesting row.now.bounds.now p) }
    requires rows { reckoning.now.flow.rows ≤ 1000000000000 }
    requires constants { AreInRange reckoning.now.constants.now }
    ensures { result ≡ the_inner row.now.group.now row.now.bounds.now (adds_by reckoning.now.n reckoning.now.constants.now reckoning.now.flow) wanted }
{
    if may_have(row.group.interesting.as_slice(), wanted) {
        row.inner_to(reckoning, wanted)
    } else {
        None
    }
}

/// The cheapest move or free change within a group that gives its rows under the wanted property, by its own bounds, with
/// what moves of its rows are reckoned with. None where each sum is unreachable.
pub fn inner_offer(row: &Row<'_>, reckoning: &Reckoning<'_>, wanted: Prop) -> Option<Offer>
    requires small { (p : Property) → IsSmall (bound_by row.now.group.now.interesting row.now.bounds.now p) }
    requires rows { reckoning.now.flow.rows ≤ 1000000000000 }
    requires constants { AreInRange reckoning.now.constants.now }
    ensures { (costs : Costs) (number : Number) → AgreeAt costs number (adds_by reckoning.now.n reckoning.now.constants.now reckoning.now.flow) → Best (IsInnerWay row.now.group.now wanted) (sum_of costs (row_bound row.now.group.now.interesting row.now.bounds.now) number) result }
{
    inner_within(row, reckoning, wanted)
}

/// The cheapest way to make the rows of a group under a property, by the bounds that are kept, with what moves of its rows
/// are reckoned with: none of its ways has a lower sum. None where each sum is unreachable.
pub fn least_offer(kept: &Kept<'_>, reckoning: &Reckoning<'_>, made: Made) -> Option<Offer>
    requires small { AreSmall (bound_in kept.now.groups.now kept.now.lists.now) }
    requires rows { reckoning.now.flow.rows ≤ 1000000000000 }
    requires constants { AreInRange reckoning.now.constants.now }
    ensures { (costs : Costs) → AgreeAt costs made.group (adds_by reckoning.now.n reckoning.now.constants.now reckoning.now.flow) → (group : GroupValue) → slice_get kept.now.groups.now made.group.0 ≡ Some group → Best (IsWay group made.prop) (sum_of costs (bound_in kept.now.groups.now kept.now.lists.now) made.group) result }
{
    let number = made.group.0 as usize;
    let Some(group) = at(kept.groups, number) else {
        return None;
    };
    let local = local_within(kept, group, made.prop);
    match at(kept.lists, number) {
        Some(list) => {
            let row = Row {
                group,
                bounds: list.as_slice(),
            };
            let inner = inner_within(&row, reckoning, made.prop);
            cheaper(local, inner)
        }
        None => local,
    }
}
