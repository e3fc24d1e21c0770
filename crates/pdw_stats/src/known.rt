ghost use Rattle.std.specs.Prelude.{refl};
ghost use Rattle.std.specs.Cmp.{eq_by_cmp_equiv, on_equiv, on_total, partial_equiv_from_equiv, partial_order_from_total};
ghost use Rattle.std.specs.Ordering.{as_partial_cmp, eq_by_cmp, on};
ghost use Rattle.pdw_base.proofs.ComparisonLemmas.{value_cmp-total};
ghost use Rattle.pdw_base.specs.Comparison.{value_cmp};
ghost use Rattle.pdw_base.specs.Value.{owned};

use pdw_base::{ValueRef, order};
use std::cmp::Ordering;

/// A borrowed value in the total order of values.
#[derive(Clone, Copy)]
pub struct Known<'a> {
    pub value: ValueRef<'a>,
}

impl PartialEq for Known<'_> {
    ghost eq = { on (λ known. owned known.value) (eq_by_cmp value_cmp) };

    ghost laws = { partial_equiv_from_equiv (on_equiv (λ known. owned known.value) (eq_by_cmp_equiv value_cmp-total)) };

    fn eq(&self, other: &Self) -> bool {
        order(self.value, other.value).is_eq()
    }
}

impl Eq for Known<'_> {
    ghost laws = { on_equiv (λ known. owned known.value) (eq_by_cmp_equiv value_cmp-total) };
}

impl PartialOrd for Known<'_> {
    ghost partial_cmp = { as_partial_cmp (on (λ known. owned known.value) value_cmp) };

    ghost laws = { partial_order_from_total (on_total (λ known. owned known.value) value_cmp-total) };

    fn partial_cmp(&self, other: &Self) -> Option<Ordering> {
        Some(self.cmp(other))
    }
}

impl Ord for Known<'_> {
    ghost cmp = { on (λ known. owned known.value) value_cmp };

    ghost total = { on_total (λ known. owned known.value) value_cmp-total };

    ghost matches_partial_cmp = { λ x y. refl };

    ghost matches_eq = { λ x y. refl };

    fn cmp(&self, other: &Self) -> Ordering {
        order(self.value, other.value)
    }
}
