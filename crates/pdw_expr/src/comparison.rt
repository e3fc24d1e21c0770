ghost use Rattle.std.specs.Prelude.{◌≡◌};
ghost use Rattle.pdw_base.specs.Value.{owned};
ghost use Rattle.pdw_expr.specs.Comparison.{comparison, holds_at};
ghost use Rattle.pdw_expr.specs.Comparison as spec;
ghost use Rattle.pdw_expr.specs.Logic.{decided};

use crate::Cmp;
use crate::logic::truth_from;
use pdw_base::{Truth, ValueRef, compare};
use std::cmp::Ordering;

fn holds(op: Cmp, ordering: Ordering) -> bool
    ensures { result ≡ holds_at op ordering }
{
    match op {
        Cmp::Eq => ordering.is_eq(),
        Cmp::Ne => ordering.is_ne(),
        Cmp::Lt => ordering.is_lt(),
        Cmp::Le => ordering.is_le(),
        Cmp::Gt => ordering.is_gt(),
        Cmp::Ge => ordering.is_ge(),
    }
}

/// A comparison of two values: SQL-92, 8.2. It is Unknown where either is NULL or they are of two kinds.
pub fn compared_by(op: Cmp, a: ValueRef<'_>, b: ValueRef<'_>) -> Truth
    ensures { result ≡ comparison op (owned a.entry) (owned b.entry) }
{
    match compare(a, b) {
        Some(ordering) => truth_from(holds(op, ordering)),
        None => Truth::Unknown,
    }
}

/// `a IS NULL`: SQL-92, 8.6.
pub fn is_null(a: ValueRef<'_>) -> Truth
    ensures { result ≡ decided (spec.is_null (owned a.entry)) }
{
    truth_from(matches!(a, ValueRef::Null))
}
