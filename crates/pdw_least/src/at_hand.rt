//! The search at one group: its operators first, then its moves and free changes until no bound falls.

ghost use Rattle.std.specs.Prelude.{◌≡◌, ◌||◌, ℕ, Bool, List, Option, Some, [], ◌∷◌, ◌++◌, IfOk, OnOk};
ghost use Rattle.std.specs.List.{slice_get};
ghost use Rattle.pdw_move.specs.declared.kinds.Prop.{Prop as Property};
ghost use Rattle.pdw_ways.specs.Bounds.{IsSmall, bound_by, bound_in, row_bound, sum_of};
ghost use Rattle.pdw_ways.specs.Offers.{Best, IsInnerWay};
ghost use Rattle.pdw_least.specs.Premises.{ArePremises, AreWithin, costs_of};
ghost use Rattle.pdw_least.specs.States.{AreUnderInner, IsInnerGoing, IsLocalDone, IsPassing, IsWorking};
ghost use Rattle.pdw_least.specs.declared.entry.Entry.{Entry as EntryValue};

use crate::Entry;
use crate::row::lower;
use pdw_base::NoMemory;
use pdw_groups::{Group, GroupId};
use pdw_move::Prop;
use pdw_ways::{Costing, Kept, Made, Offer, Row, inner_offer, local_offer};
use sqlite_items::Items;

// A group, with the lists of the groups before it.
#[derive(Drop)]
pub(crate) struct AtHand<'a> {
    pub(crate) groups: &'a [Group],
    pub(crate) costing: &'a Costing<'a>,
    pub(crate) lists: &'a [Items<Option<u128>>],
    pub(crate) number: GroupId,
    pub(crate) group: &'a Group,
    // the properties of the group
    pub(crate) props: &'a [Prop],
}

fn either(first: bool, second: bool) -> bool
    ensures { result ≡ (first || second) }
{
    first || second
}

impl AtHand<'_> {
    // Looks at the operators that give a property.
    fn operators_to(
        &self,
        row: &mut Items<Option<u128>>,
        log: &mut Items<Entry>,
        wanted: Prop,
    ) -> Result<(), NoMemory>
        requires premises { ArePremises self.now.groups.now self.now.costing.now }
        requires there { slice_get self.now.groups.now self.now.number.0 ≡ Some self.now.group.now }
        requires within { AreWithin self.now.groups.now (bound_in self.now.groups.now self.now.lists.now) }
        requires working { IsWorking self.now.groups.now (costs_of self.now.costing.now) self.now.lists.now self.now.number self.now.group.now row.old log.old }
        ensures { OnOk result ((done : List Property) → IsLocalDone self.now.groups.now (costs_of self.now.costing.now) self.now.lists.now self.now.number self.now.group.now done row.old log.old → IsLocalDone self.now.groups.now (costs_of self.now.costing.now) self.now.lists.now self.now.number self.now.group.now (done ++ wanted ∷ []) row.new log.new) }
    {
        let kept = Kept {
            groups: self.groups,
            lists: self.lists,
        };
        let offer = local_offer(&kept, self.group, wanted);
        let made = Made {
            group: self.number,
            prop: wanted,
        };
        lower(row, log, self.group.interesting.as_slice(), made, offer)?;
        Ok(())
    }

    // Looks at the operators that give each property.
    pub(crate) fn look_at_operators(
        &self,
        row: &mut Items<Option<u128>>,
        log: &mut Items<Entry>,
    ) -> Result<(), NoMemory>
        requires premises { ArePremises self.now.groups.now self.now.costing.now }
        requires there { slice_get self.now.groups.now self.now.number.0 ≡ Some self.now.group.now }
        requires within { AreWithin self.now.groups.now (bound_in self.now.groups.now self.now.lists.now) }
        requires start { IsLocalDone self.now.groups.now (costs_of self.now.costing.now) self.now.lists.now self.now.number self.now.group.now [] row.old log.old }
        ensures { OnOk result (IsLocalDone self.now.groups.now (costs_of self.now.costing.now) self.now.lists.now self.now.number self.now.group.now self.now.props.now row.new log.new) }
    {
        for wanted in self.props {
            self.operators_to(row, log, *wanted)?;
        }
        Ok(())
    }

    // The cheapest move or free change that gives a property.
    fn moved_to(&self, bounds: &[Option<u128>], wanted: Prop) -> Option<Offer>
        requires premises { ArePremises self.now.groups.now self.now.costing.now }
        requires small { (p : Property) → IsSmall (bound_by self.now.group.now.interesting bounds.now p) }
        ensures { Best (IsInnerWay self.now.group.now wanted) (sum_of (costs_of self.now.costing.now) (row_bound self.now.group.now.interesting bounds.now) self.now.number) result }
    {
        let row = Row {
            group: self.group,
            bounds,
        };
        let reckoning = self.costing.at(self.number);
        inner_offer(&row, &reckoning, wanted)
    }

    // Looks at the moves and free changes that give a property, and tells whether its bound fell.
    fn moves_to(
        &self,
        row: &mut Items<Option<u128>>,
        log: &mut Items<Entry>,
        wanted: Prop,
    ) -> Result<bool, NoMemory>
        requires premises { ArePremises self.now.groups.now self.now.costing.now }
        requires there { slice_get self.now.groups.now self.now.number.0 ≡ Some self.now.group.now }
        requires small { (p : Property) → IsSmall (bound_by self.now.group.now.interesting row.old p) }
        requires working { IsWorking self.now.groups.now (costs_of self.now.costing.now) self.now.lists.now self.now.number self.now.group.now row.old log.old }
        ensures { IfOk result (λ more. (props : List Property) (start : List EntryValue) (before : List (Option ℕ)) (done : List Property) (fell : Bool) → IsPassing self.now.groups.now (costs_of self.now.costing.now) self.now.lists.now self.now.number self.now.group.now props start before done fell row.old log.old → IsPassing self.now.groups.now (costs_of self.now.costing.now) self.now.lists.now self.now.number self.now.group.now props start before (done ++ wanted ∷ []) (fell || more) row.new log.new) }
    {
        let offer = self.moved_to(row.as_slice(), wanted);
        self.costing.each_move_is_cheap();
        let made = Made {
            group: self.number,
            prop: wanted,
        };
        let more = lower(row, log, self.group.interesting.as_slice(), made, offer)?;
        Ok(more)
    }

    // Looks at the moves and free changes that give each property, and tells whether a bound fell.
    fn pass(&self, row: &mut Items<Option<u128>>, log: &mut Items<Entry>) -> Result<bool, NoMemory>
        requires premises { ArePremises self.now.groups.now self.now.costing.now }
        requires there { slice_get self.now.groups.now self.now.number.0 ≡ Some self.now.group.now }
        requires going { IsInnerGoing self.now.groups.now (costs_of self.now.costing.now) self.now.lists.now self.now.number self.now.group.now self.now.props.now row.old log.old }
        ensures { IfOk result (λ fell. IsPassing self.now.groups.now (costs_of self.now.costing.now) self.now.lists.now self.now.number self.now.group.now self.now.props.now log.old row.old self.now.props.now fell row.new log.new) }
    {
        let mut fell = false;
        for wanted in self.props {
            let more = self.moves_to(row, log, *wanted)?;
            fell = either(fell, more);
        }
        Ok(fell)
    }

    // Looks at moves and free changes until no bound falls.
    pub(crate) fn settle(
        &self,
        row: &mut Items<Option<u128>>,
        log: &mut Items<Entry>,
    ) -> Result<(), NoMemory>
        requires premises { ArePremises self.now.groups.now self.now.costing.now }
        requires there { slice_get self.now.groups.now self.now.number.0 ≡ Some self.now.group.now }
        requires going { IsInnerGoing self.now.groups.now (costs_of self.now.costing.now) self.now.lists.now self.now.number self.now.group.now self.now.props.now row.old log.old }
        ensures going { OnOk result (IsInnerGoing self.now.groups.now (costs_of self.now.costing.now) self.now.lists.now self.now.number self.now.group.now self.now.props.now row.new log.new) }
        ensures settled { OnOk result (AreUnderInner self.now.groups.now (costs_of self.now.costing.now) self.now.lists.now self.now.number self.now.group.now self.now.props.now log.new) }
    {
        'passes: loop {
            let fell = self.pass(row, log)?;
            if !fell {
                return Ok(());
            }
        }
    }
}
