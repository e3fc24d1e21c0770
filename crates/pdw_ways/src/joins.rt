//! Joins that give rows under a wanted property, by their rules read backwards.

ghost use Rattle.std.specs.Prelude.{◌≡◌, fold};
ghost use Rattle.pdw_groups.specs.Columns as columns;
ghost use Rattle.pdw_rules.specs.Rules as rule;
ghost use Rattle.pdw_ways.specs.Bounds.{AreSmall, bound_in};
ghost use Rattle.pdw_ways.specs.Search as search_of;

use crate::offer::{sum_of_two, with_way};
use crate::{Kept, Made, Offer, Way};
use pdw_base::ColId;
use pdw_expr::{Cmp, Cond, JoinKind, Scalar};
use pdw_groups::GroupId;
use pdw_move::Prop;
use pdw_rules::is_same;

// Two groups whose rows are joined, and the property under which the joined rows are wanted.
#[derive(Clone, Copy)]
pub(crate) struct Sides {
    pub(crate) left: GroupId,
    pub(crate) right: GroupId,
    pub(crate) wanted: Prop,
}

fn column_alone(e: &Scalar) -> Option<ColId>
    ensures { result ≡ columns.column_alone e.now }
{
    match e {
        Scalar::Col(c) => Some(*c),
        _ => None,
    }
}

// Whether rows that are joined by the hash of these two columns stand as wanted.
fn is_matched(kind: JoinKind, a: ColId, b: ColId, wanted: Prop) -> bool
    ensures { result ≡ rule.matched_rule kind a b wanted }
{
    match kind {
        JoinKind::Inner => is_same(Prop::Hash(a), wanted) || is_same(Prop::Hash(b), wanted),
        JoinKind::Full => is_same(Prop::Spread, wanted),
        JoinKind::Left | JoinKind::Semi | JoinKind::Anti => is_same(Prop::Hash(a), wanted),
    }
}

fn is_full(kind: JoinKind) -> bool
    ensures { result ≡ rule.is_full kind }
{
    matches!(kind, JoinKind::Full)
}

fn is_inner(kind: JoinKind) -> bool
    ensures { result ≡ rule.is_inner kind }
{
    matches!(kind, JoinKind::Inner)
}

fn is_divided(p: Prop) -> bool
    ensures { result ≡ rule.is_divided p }
{
    matches!(p, Prop::Spread | Prop::Hash(_) | Prop::Single)
}

fn is_whole(p: Prop) -> bool
    ensures { result ≡ rule.is_whole p }
{
    matches!(p, Prop::Replicated | Prop::Single | Prop::Control)
}

impl Kept<'_> {
    fn with_two(&self, best: Option<Offer>, left: Made, right: Made) -> Option<Offer>
        requires small { AreSmall (bound_in self.now.groups.now self.now.lists.now) }
        ensures { result ≡ search_of.with_two (bound_in self.now.groups.now self.now.lists.now) best left right }
    {
        let first = self.bound(left);
        let second = self.bound(right);
        with_way(best, Way::Two(left, right), sum_of_two(first, second))
    }

    fn with_sides(&self, sides: Sides, best: Option<Offer>, p: Prop, q: Prop) -> Option<Offer>
        requires small { AreSmall (bound_in self.now.groups.now self.now.lists.now) }
        ensures { result ≡ search_of.with_sides (bound_in self.now.groups.now self.now.lists.now) sides.left sides.right sides.wanted best p q }
    {
        let left = Made {
            group: sides.left,
            prop: p,
        };
        let right = Made {
            group: sides.right,
            prop: q,
        };
        self.with_two(best, left, right)
    }

    fn with_hashes(
        &self,
        sides: Sides,
        kind: JoinKind,
        best: Option<Offer>,
        a: ColId,
        b: ColId,
    ) -> Option<Offer>
        requires small { AreSmall (bound_in self.now.groups.now self.now.lists.now) }
        ensures { result ≡ search_of.with_hashes (bound_in self.now.groups.now self.now.lists.now) sides.left sides.right sides.wanted kind best a b }
    {
        if is_matched(kind, a, b, sides.wanted) {
            self.with_sides(sides, best, Prop::Hash(a), Prop::Hash(b))
        } else {
            best
        }
    }

    fn with_conjunct(
        &self,
        sides: Sides,
        kind: JoinKind,
        best: Option<Offer>,
        conjunct: &Cond,
    ) -> Option<Offer>
        requires small { AreSmall (bound_in self.now.groups.now self.now.lists.now) }
        ensures { result ≡ search_of.with_conjunct (bound_in self.now.groups.now self.now.lists.now) sides.left sides.right sides.wanted kind best conjunct.now }
    {
        if let Cond::Compare(Cmp::Eq, first, second) = conjunct {
            if let (Some(a), Some(b)) = (column_alone(first), column_alone(second)) {
                let found = self.with_hashes(sides, kind, best, a, b);
                return self.with_hashes(sides, kind, found, b, a);
            }
        }
        best
    }

    fn with_conjuncts(
        &self,
        sides: Sides,
        kind: JoinKind,
        best: Option<Offer>,
        conds: &[Cond],
    ) -> Option<Offer>
        requires small { AreSmall (bound_in self.now.groups.now self.now.lists.now) }
        ensures { result ≡ fold (search_of.with_conjunct (bound_in self.now.groups.now self.now.lists.now) sides.left sides.right sides.wanted kind) best conds.now }
    {
        let mut found = best;
        for conjunct in conds {
            found = self.with_conjunct(sides, kind, found, conjunct);
        }
        found
    }

    fn with_right_replicated(
        &self,
        sides: Sides,
        kind: JoinKind,
        best: Option<Offer>,
    ) -> Option<Offer>
        requires small { AreSmall (bound_in self.now.groups.now self.now.lists.now) }
        ensures { result ≡ search_of.with_right_replicated (bound_in self.now.groups.now self.now.lists.now) sides.left sides.right sides.wanted kind best }
    {
        if !is_full(kind) && is_divided(sides.wanted) {
            self.with_sides(sides, best, sides.wanted, Prop::Replicated)
        } else {
            best
        }
    }

    fn with_left_replicated(
        &self,
        sides: Sides,
        kind: JoinKind,
        best: Option<Offer>,
    ) -> Option<Offer>
        requires small { AreSmall (bound_in self.now.groups.now self.now.lists.now) }
        ensures { result ≡ search_of.with_left_replicated (bound_in self.now.groups.now self.now.lists.now) sides.left sides.right sides.wanted kind best }
    {
        if is_inner(kind) && is_divided(sides.wanted) {
            self.with_sides(sides, best, Prop::Replicated, sides.wanted)
        } else {
            best
        }
    }

    fn with_one_site(&self, sides: Sides, best: Option<Offer>) -> Option<Offer>
        requires small { AreSmall (bound_in self.now.groups.now self.now.lists.now) }
        ensures { result ≡ search_of.with_one_site (bound_in self.now.groups.now self.now.lists.now) sides.left sides.right sides.wanted best }
    {
        if is_whole(sides.wanted) {
            self.with_sides(sides, best, sides.wanted, sides.wanted)
        } else {
            best
        }
    }

    // The cheaper of an offer and the joins of two groups that give the wanted property.
    pub(crate) fn with_join(
        &self,
        sides: Sides,
        kind: JoinKind,
        conds: &[Cond],
        best: Option<Offer>,
    ) -> Option<Offer>
        requires small { AreSmall (bound_in self.now.groups.now self.now.lists.now) }
        ensures { result ≡ search_of.with_join (bound_in self.now.groups.now self.now.lists.now) sides.left sides.right sides.wanted kind conds.now best }
    {
        let hashed = self.with_conjuncts(sides, kind, best, conds);
        let right = self.with_right_replicated(sides, kind, hashed);
        let left = self.with_left_replicated(sides, kind, right);
        self.with_one_site(sides, left)
    }
}
