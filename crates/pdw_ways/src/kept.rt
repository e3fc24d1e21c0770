//! Bounds as they are kept: for each group a list over its properties.

ghost use Rattle.std.specs.Prelude.{◌≡◌, ◌==◌, ◌<◌, IfSome, length};
ghost use Rattle.std.specs.List.{position};
ghost use Rattle.pdw_rules.specs.Rules.{is_same, properties_of};
ghost use Rattle.pdw_ways.specs.Bounds.{AreSmall, IsSmall, bound_among, bound_by as bound_for, bound_in, place_among};

use crate::Made;
use pdw_base::ColId;
use pdw_groups::Group;
use pdw_move::Prop;
use sqlite_items::{Items, at};

/// Groups with the bounds that are kept for them.
#[derive(Drop)]
pub struct Kept<'a> {
    pub groups: &'a [Group],
    /// For each group by number, as far as there are any, a bound for each property in their order.
    pub lists: &'a [Items<Option<u128>>],
}

fn column_position(columns: &[ColId], c: ColId) -> Option<usize>
    ensures place { result ≡ position (λ i. c.0 == i.0) columns.now }
    ensures within { IfSome result (λ place. place < length columns.now) }
{
    columns.iter().position(|column| c.0 == column.0)
}

// The place of a column among some columns.
#[tactic(auto, using(crate::proofs::Places::position_place))]
fn column_place(columns: &[ColId], c: ColId) -> Option<usize>
    ensures place { result ≡ place_among (λ i. c.0 == i.0) columns.now }
    ensures within { IfSome result (λ place. place < length columns.now) }
{
    column_position(columns, c)
}

/// The place of a property among those of a group with these interesting columns.
pub fn place_of(interesting: &[ColId], property: Prop) -> Option<usize>
    ensures place { result ≡ place_among (is_same property) (properties_of interesting.now) }
    ensures within { IfSome result (λ place. place < length (properties_of interesting.now)) }
{
    place_by_kind(interesting, property)
}

// The same, by the kind of the property.
#[tactic(auto, using(crate::proofs::Places::places))]
fn place_by_kind(interesting: &[ColId], property: Prop) -> Option<usize>
    ensures { result ≡ place_among (is_same property) (properties_of interesting.now) }
{
    match property {
        Prop::Spread => Some(0),
        Prop::Hash(c) => match column_place(interesting, c) {
            Some(place) => Some(place + 1),
            None => None,
        },
        Prop::Replicated => Some(interesting.len() + 1),
        Prop::Single => Some(interesting.len() + 2),
        Prop::Control => Some(interesting.len() + 3),
    }
}

/// The bound of a list over the properties of a group with these interesting columns.
#[tactic(auto, using(crate::proofs::Places::bound_found, crate::proofs::Places::bound_missing, crate::proofs::Places::bound_nowhere))]
pub fn bound_by(interesting: &[ColId], list: &[Option<u128>], property: Prop) -> Option<u128>
    ensures { result ≡ bound_for interesting.now list.now property }
{
    match place_of(interesting, property) {
        Some(place) => match at(list, place) {
            Some(bound) => *bound,
            None => None,
        },
        None => None,
    }
}

impl Kept<'_> {
    /// The bound that is kept for the rows of a group under a property. None where no number is.
    pub fn bound(&self, made: Made) -> Option<u128>
        requires small { AreSmall (bound_in self.now.groups.now self.now.lists.now) }
        ensures bound { result ≡ bound_in self.now.groups.now self.now.lists.now made }
        ensures small { IsSmall result }
    {
        let number = made.group.0 as usize;
        let Some(group) = at(self.groups, number) else {
            return None;
        };
        match at(self.lists, number) {
            Some(list) => bound_by(group.interesting.as_slice(), list.as_slice(), made.prop),
            None => None,
        }
    }
}
