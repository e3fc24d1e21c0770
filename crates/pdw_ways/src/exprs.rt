//! Expressions that give rows under a wanted property: scans, operators over one group, and joins.

ghost use Rattle.std.specs.Prelude.{◌≡◌, fold};
ghost use Rattle.std.specs.List.{slice_get};
ghost use Rattle.pdw_rules.specs.Rules.{leaf_rule, unary_rule};
ghost use Rattle.pdw_ways.specs.Bounds.{AreSmall, bound_in};
ghost use Rattle.pdw_ways.specs.Search as search_of;

use crate::joins::Sides;
use crate::offer::with_way;
use crate::{Kept, Made, Offer, Way};
use pdw_base::ColId;
use pdw_groups::{Expr, Group, GroupId, Op};
use pdw_move::Prop;
use pdw_rules::local_rule;
use sqlite_items::at;

// The interesting columns of a group. None where there is no group of this number.
fn interesting_at(groups: &[Group], number: GroupId) -> &[ColId]
    ensures { result.now ≡ search_of.interesting_of (slice_get groups.now number.0) }
{
    match at(groups, number.0 as usize) {
        Some(group) => group.interesting.as_slice(),
        None => &[],
    }
}

fn is_leaf(op: &Op, wanted: Prop) -> bool
    ensures { result ≡ leaf_rule op.now wanted }
{
    local_rule(op, &[], wanted)
}

fn is_unary(op: &Op, p: Prop, wanted: Prop) -> bool
    ensures { result ≡ unary_rule op.now p wanted }
{
    local_rule(op, &[p], wanted)
}

fn with_leaf(op: &Op, wanted: Prop, best: Option<Offer>) -> Option<Offer>
    ensures { result ≡ search_of.with_leaf wanted op.now best }
{
    if is_leaf(op, wanted) {
        with_way(best, Way::Scan, Some(0))
    } else {
        best
    }
}

impl Kept<'_> {
    fn with_under(
        &self,
        op: &Op,
        child: GroupId,
        wanted: Prop,
        best: Option<Offer>,
        p: Prop,
    ) -> Option<Offer>
        requires small { AreSmall (bound_in self.now.groups.now self.now.lists.now) }
        ensures { result ≡ search_of.with_under (bound_in self.now.groups.now self.now.lists.now) wanted op.now child best p }
    {
        if is_unary(op, p, wanted) {
            let below = Made {
                group: child,
                prop: p,
            };
            with_way(best, Way::One(below), self.bound(below))
        } else {
            best
        }
    }

    fn with_hashed(
        &self,
        op: &Op,
        child: GroupId,
        wanted: Prop,
        best: Option<Offer>,
        interesting: &[ColId],
    ) -> Option<Offer>
        requires small { AreSmall (bound_in self.now.groups.now self.now.lists.now) }
        ensures { result ≡ search_of.with_hashed (bound_in self.now.groups.now self.now.lists.now) wanted op.now child best interesting.now }
    {
        let mut found = best;
        for column in interesting {
            found = self.with_under(op, child, wanted, found, Prop::Hash(*column));
        }
        found
    }

    fn with_child(
        &self,
        op: &Op,
        child: GroupId,
        wanted: Prop,
        best: Option<Offer>,
    ) -> Option<Offer>
        requires small { AreSmall (bound_in self.now.groups.now self.now.lists.now) }
        ensures { result ≡ search_of.with_child (bound_in self.now.groups.now self.now.lists.now) wanted (search_of.interesting_at self.now.groups.now child) op.now child best }
    {
        let spread = self.with_under(op, child, wanted, best, Prop::Spread);
        let columns = interesting_at(self.groups, child);
        let hashed = self.with_hashed(op, child, wanted, spread, columns);
        let replicated = self.with_under(op, child, wanted, hashed, Prop::Replicated);
        let single = self.with_under(op, child, wanted, replicated, Prop::Single);
        self.with_under(op, child, wanted, single, Prop::Control)
    }

    fn with_pair(&self, op: &Op, sides: Sides, best: Option<Offer>) -> Option<Offer>
        requires small { AreSmall (bound_in self.now.groups.now self.now.lists.now) }
        ensures { result ≡ search_of.with_pair (bound_in self.now.groups.now self.now.lists.now) sides.left sides.right sides.wanted op.now best }
    {
        match op {
            Op::Join { kind, conds } => self.with_join(sides, *kind, conds.as_slice(), best),
            _ => best,
        }
    }

    fn with_children(
        &self,
        op: &Op,
        children: &[GroupId],
        wanted: Prop,
        best: Option<Offer>,
    ) -> Option<Offer>
        requires small { AreSmall (bound_in self.now.groups.now self.now.lists.now) }
        ensures { result ≡ search_of.with_children (bound_in self.now.groups.now self.now.lists.now) self.now.groups.now wanted op.now children.now best }
    {
        match children {
            [child] => self.with_child(op, *child, wanted, best),
            [left, right] => {
                let sides = Sides {
                    left: *left,
                    right: *right,
                    wanted,
                };
                self.with_pair(op, sides, best)
            }
            _ => best,
        }
    }

    fn with_expr(&self, wanted: Prop, best: Option<Offer>, expr: &Expr) -> Option<Offer>
        requires small { AreSmall (bound_in self.now.groups.now self.now.lists.now) }
        ensures { result ≡ search_of.with_expr (bound_in self.now.groups.now self.now.lists.now) self.now.groups.now wanted best expr.now }
    {
        let scanned = with_leaf(&expr.op, wanted, best);
        self.with_children(&expr.op, expr.children.as_slice(), wanted, scanned)
    }

    // The cheapest of the ways of some expressions.
    pub(crate) fn of_exprs(&self, wanted: Prop, exprs: &[Expr]) -> Option<Offer>
        requires small { AreSmall (bound_in self.now.groups.now self.now.lists.now) }
        ensures { result ≡ fold (search_of.with_expr (bound_in self.now.groups.now self.now.lists.now) self.now.groups.now wanted) None exprs.now }
    {
        let mut found = None;
        for expr in exprs {
            found = self.with_expr(wanted, found, expr);
        }
        found
    }
}
