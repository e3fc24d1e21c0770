ghost use Rattle.std.specs.Prelude.{◌≡◌};
ghost use Rattle.std.specs.Cmp.{IsTotalOrder};
ghost use Rattle.std.specs.declared.cmp.Ordering.TheVariants as ord;
ghost use Rattle.pdw_base.specs.Value.{owned};
ghost use Rattle.pdw_base.specs.Comparison.{class, compared, value_cmp};
ghost use Rattle.pdw_base.specs.declared.value.Value.{Value as SqlValue};

use crate::ValueRef;
use std::cmp::Ordering;

/// How two values compare, or None where either is NULL or their kinds differ (SQL-92, 8.2).
pub fn compare(a: ValueRef<'_>, b: ValueRef<'_>) -> Option<Ordering>
    ensures { result ≡ compared (owned a.entry) (owned b.entry) }
{
    match (a, b) {
        (ValueRef::Int(x), ValueRef::Int(y)) => Some(x.cmp(&y)),
        (ValueRef::Text(x), ValueRef::Text(y)) => Some(x.bytes().cmp(&y.bytes())),
        (ValueRef::Wide(x), ValueRef::Wide(y)) => Some(x.cmp(&y)),
        _ => None,
    }
}

fn class_of(a: ValueRef<'_>) -> u8
    ensures { result ≡ class (owned a.entry) }
{
    match a {
        ValueRef::Null => 0,
        ValueRef::Int(_) => 1,
        ValueRef::Text(_) => 2,
        ValueRef::Wide(_) => 3,
    }
}

/// The order of ORDER BY: NULL, then numbers, texts by their bytes, and wide numbers.
pub fn order(a: ValueRef<'_>, b: ValueRef<'_>) -> Ordering
    ensures { result ≡ value_cmp (owned a.entry) (owned b.entry) }
{
    match (a, b) {
        (ValueRef::Int(x), ValueRef::Int(y)) => x.cmp(&y),
        (ValueRef::Text(x), ValueRef::Text(y)) => x.bytes().cmp(&y.bytes()),
        (ValueRef::Wide(x), ValueRef::Wide(y)) => x.cmp(&y),
        _ => class_of(a).cmp(&class_of(b)),
    }
}

/// The law of `order`: it is a total order, and equal only for equal values.
pub fn order_is_total()
    ensures total { IsTotalOrder value_cmp }
    ensures equal_only { (a b : SqlValue) → value_cmp a b ≡ ord.Equal → a ≡ b }
{}
