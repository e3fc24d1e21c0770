//! The search: groups in rising number, each after its children.

ghost use Rattle.std.specs.Prelude.{◌≡◌, ◌+◌, ◌++◌, [], ◌∷◌, suc, length, Some, IfOk, OnOk};
ghost use Rattle.std.specs.List.{slice_get};
ghost use Rattle.pdw_rules.specs.Rules.{properties_of};
ghost use Rattle.pdw_least.specs.Premises.{ArePremises, costs_of};
ghost use Rattle.pdw_least.specs.States.{IsTable, blank_row as the_blank_row};
ghost use Rattle.pdw_least.specs.Table.{IsLeastTable};

use crate::Entry;
use crate::at_hand::AtHand;
use pdw_base::NoMemory;
use pdw_groups::{Group, GroupId};
use pdw_move::Prop;
use pdw_rules::properties;
use pdw_ways::Costing;
use sqlite_items::Items;
use std::alloc::Global;

/// The groups of a memo, with what their moves are reckoned with.
#[derive(Drop)]
pub struct Search<'a> {
    pub groups: &'a [Group],
    pub costing: &'a Costing<'a>,
}

/// Least costs.
#[derive(Drop)]
pub struct Table {
    /// For each group by number the least costs of its rows, for each of its properties in their order. None where there is
    /// no plan.
    pub lists: Items<Items<Option<u128>>>,
    /// How they were found, from which plans are read off.
    pub log: Items<Entry>,
}

fn blank_row(alloc: Global, props: &[Prop]) -> Result<Items<Option<u128>>, NoMemory>
    ensures { IfOk result (λ row. row ≡ the_blank_row props.now) }
{
    let mut row = Items::new(alloc);
    'props: for _prop in props {
        row.push(None)?;
    }
    Ok(row)
}

impl Search<'_> {
    // The bounds of the next group.
    fn next_row(
        &self,
        alloc: Global,
        lists: &[Items<Option<u128>>],
        log: &mut Items<Entry>,
        number: GroupId,
        group: &Group,
    ) -> Result<Items<Option<u128>>, NoMemory>
        requires premises { ArePremises self.now.groups.now self.now.costing.now }
        requires table { IsTable self.now.groups.now (costs_of self.now.costing.now) lists.now log.old }
        requires next { number.0 ≡ length lists.now }
        requires there { slice_get self.now.groups.now number.0 ≡ Some group.now }
        ensures { IfOk result (λ row. IsTable self.now.groups.now (costs_of self.now.costing.now) (lists.now ++ row ∷ []) log.new) }
    {
        let props = properties(alloc, group.interesting.as_slice())?;
        let mut row = blank_row(alloc, props.as_slice())?;
        let at_hand = AtHand {
            groups: self.groups,
            costing: self.costing,
            lists,
            number,
            group,
            props: props.as_slice(),
        };
        at_hand.look_at_operators(&mut row, log)?;
        at_hand.settle(&mut row, log)?;
        Ok(row)
    }

    fn add_group(
        &self,
        alloc: Global,
        lists: &mut Items<Items<Option<u128>>>,
        log: &mut Items<Entry>,
        number: GroupId,
        group: &Group,
    ) -> Result<(), NoMemory>
        requires premises { ArePremises self.now.groups.now self.now.costing.now }
        requires table { IsTable self.now.groups.now (costs_of self.now.costing.now) lists.old log.old }
        requires next { number.0 ≡ length lists.old }
        requires there { slice_get self.now.groups.now number.0 ≡ Some group.now }
        ensures table { OnOk result (IsTable self.now.groups.now (costs_of self.now.costing.now) lists.new log.new) }
        ensures size { OnOk result (length lists.new ≡ length lists.old + 1) }
    {
        let row = self.next_row(alloc, lists.as_slice(), log, number, group)?;
        lists.push(row)?;
        Ok(())
    }

    /// The least cost of a plan for the rows of each group under each of its properties, None exactly where there is no plan.
    pub fn relax(&self, alloc: Global) -> Result<Table, NoMemory>
        requires premises { ArePremises self.now.groups.now self.now.costing.now }
        ensures { IfOk result (λ table. IsLeastTable self.now.groups.now (costs_of self.now.costing.now) table.lists table.log) }
    {
        let mut lists = Items::new(alloc);
        let mut log = Items::new(alloc);
        for (place, group) in self.groups.iter().enumerate() {
            let number = GroupId(place as u32);
            self.add_group(alloc, &mut lists, &mut log, number, group)?;
        }
        Ok(Table { lists, log })
    }
}
