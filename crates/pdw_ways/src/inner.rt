//! Moves and free changes within a group, by the bounds of its own properties.

ghost use Rattle.std.specs.Prelude.{◌≡◌, ◌<◌, ◌≤◌, ◌^◌, ℕ, Option, None, fold};
ghost use Rattle.pdw_move.specs.Cost.{AreInRange};
ghost use Rattle.pdw_move.specs.Move.{property_before};
ghost use Rattle.pdw_move.specs.declared.kinds.Prop.{Prop as Property};
ghost use Rattle.pdw_move.specs.declared.kinds.Prop.TheVariants.{Hash as ByHash};
ghost use Rattle.pdw_ways.specs.Bounds.{IsSmall, bound_by};
ghost use Rattle.pdw_ways.specs.Costing.{adds_by};
ghost use Rattle.pdw_ways.specs.Search as search_of;

use crate::kept::bound_by as bound_for;
use crate::offer::{sum_of_two, with_way};
use crate::{Offer, Reckoning, Way};
use pdw_base::ColId;
use pdw_groups::Group;
use pdw_move::{Move, Prop};

/// The bounds of the properties of one group, in their order.
#[derive(Drop)]
pub struct Row<'a> {
    pub group: &'a Group,
    pub bounds: &'a [Option<u128>],
}

impl Row<'_> {
    fn with_free(&self, best: Option<Offer>, before: Prop) -> Option<Offer>
        ensures { result ≡ search_of.with_free (bound_by self.now.group.now.interesting self.now.bounds.now) best before }
    {
        let bound = bound_for(self.group.interesting.as_slice(), self.bounds, before);
        with_way(best, Way::Free(before), bound)
    }

    fn with_move(&self, reckoning: &Reckoning<'_>, best: Option<Offer>, mv: Move) -> Option<Offer>
        requires small { (p : Property) → IsSmall (bound_by self.now.group.now.interesting self.now.bounds.now p) }
        requires rows { reckoning.now.flow.rows ≤ 1000000000000 }
        requires constants { AreInRange reckoning.now.constants.now }
        ensures { result ≡ search_of.with_move (bound_by self.now.group.now.interesting self.now.bounds.now) (adds_by reckoning.now.n reckoning.now.constants.now reckoning.now.flow) best mv }
    {
        let bound = self.small_bound(mv.from());
        let adds = reckoning.move_adds(mv);
        with_way(best, Way::Moved(mv), sum_of_two(bound, Some(adds)))
    }

    fn small_bound(&self, before: Prop) -> Option<u128>
        requires small { (p : Property) → IsSmall (bound_by self.now.group.now.interesting self.now.bounds.now p) }
        ensures bound { result ≡ bound_by self.now.group.now.interesting self.now.bounds.now before }
        ensures small { IsSmall result }
    {
        bound_for(self.group.interesting.as_slice(), self.bounds, before)
    }

    // Rows by the hash of a column are spread.
    fn spread(&self, columns: &[ColId]) -> Option<Offer>
        ensures { result ≡ fold (λ best c. search_of.with_free (bound_by self.now.group.now.interesting self.now.bounds.now) best (ByHash c)) None columns.now }
    {
        let mut found = None;
        for column in columns {
            found = self.with_free(found, Prop::Hash(*column));
        }
        found
    }

    // The cheapest of the moves and free changes that give a property.
    pub(crate) fn inner_to(&self, reckoning: &Reckoning<'_>, wanted: Prop) -> Option<Offer>
        requires small { (p : Property) → IsSmall (bound_by self.now.group.now.interesting self.now.bounds.now p) }
        requires rows { reckoning.now.flow.rows ≤ 1000000000000 }
        requires constants { AreInRange reckoning.now.constants.now }
        ensures { result ≡ search_of.inner_to (bound_by self.now.group.now.interesting self.now.bounds.now) (adds_by reckoning.now.n reckoning.now.constants.now reckoning.now.flow) self.now.group.now.interesting wanted }
    {
        match wanted {
            Prop::Spread => self.spread(self.group.interesting.as_slice()),
            Prop::Hash(c) => {
                let shuffled = self.with_move(reckoning, None, Move::Shuffle(c));
                self.with_move(reckoning, shuffled, Move::Trim(c))
            }
            Prop::Replicated => {
                let spread = self.with_move(reckoning, None, Move::Broadcast);
                let control = self.with_move(reckoning, spread, Move::FromControl);
                self.with_move(reckoning, control, Move::FromSingle)
            }
            Prop::Single => {
                let moved = self.with_move(reckoning, None, Move::ToSingle);
                self.with_free(moved, Prop::Replicated)
            }
            Prop::Control => self.with_move(reckoning, None, Move::ToControl),
        }
    }
}
