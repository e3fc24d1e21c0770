//! What an aggregate keeps of values, value by value. It takes no memory: texts are borrowed.

ghost use Rattle.std.specs.Prelude.{◌≡◌};
ghost use Rattle.pdw_agg.specs.Running as spec;
ghost use Rattle.pdw_base.specs.Comparison.{number};
ghost use Rattle.pdw_base.specs.Value.{owned};
ghost use Rattle.pdw_expr.specs.Aggregate as aggregate;
ghost use Rattle.pdw_expr.specs.Comparison as comparison;

use pdw_base::{ValueRef, order};
use pdw_expr::AggKind;

fn is_null(value: ValueRef<'_>) -> bool
    ensures { result ≡ comparison.is_null (owned value.entry) }
{
    matches!(value, ValueRef::Null)
}

fn number_of(value: ValueRef<'_>) -> i128
    ensures { result ≡ number (owned value.entry) }
{
    match value {
        ValueRef::Null | ValueRef::Text(_) => 0,
        ValueRef::Int(number) => i128::from(number),
        ValueRef::Wide(number) => number,
    }
}

// The number as one of 128 bits.
fn wide<'a>(value: ValueRef<'a>) -> ValueRef<'a>
    ensures { owned result ≡ aggregate.wide (number (owned value.entry)) }
{
    ValueRef::Wide(number_of(value))
}

fn widened<'a>(value: ValueRef<'a>) -> ValueRef<'a>
    ensures { owned result ≡ spec.widened (owned value.entry) }
{
    if is_null(value) {
        ValueRef::Null
    } else {
        wide(value)
    }
}

// Sums add up modulo 2^128.
fn plus<'a>(first: ValueRef<'a>, second: ValueRef<'a>) -> ValueRef<'a>
    ensures { owned result ≡ spec.plus (owned first.entry) (owned second.entry) }
{
    ValueRef::Wide(number_of(first).wrapping_add(number_of(second)))
}

fn lesser<'a>(first: ValueRef<'a>, second: ValueRef<'a>) -> ValueRef<'a>
    ensures { owned result ≡ aggregate.lesser (owned first.entry) (owned second.entry) }
{
    if order(second, first).is_lt() {
        second
    } else {
        first
    }
}

fn greater<'a>(first: ValueRef<'a>, second: ValueRef<'a>) -> ValueRef<'a>
    ensures { owned result ≡ aggregate.greater (owned first.entry) (owned second.entry) }
{
    if order(second, first).is_gt() {
        second
    } else {
        first
    }
}

/// What an aggregate keeps of two parts, by what it kept of each.
pub fn joined<'a>(kind: AggKind, first: ValueRef<'a>, second: ValueRef<'a>) -> ValueRef<'a>
    ensures { owned result ≡ spec.joined kind (owned first.entry) (owned second.entry) }
{
    match kind {
        AggKind::CountStar | AggKind::Count => plus(first, second),
        _ if is_null(first) => second,
        _ if is_null(second) => first,
        AggKind::Sum => plus(first, second),
        AggKind::Min => lesser(first, second),
        AggKind::Max => greater(first, second),
    }
}

/// What an aggregate keeps of no value.
pub fn nothing<'a>(kind: AggKind) -> ValueRef<'a>
    ensures { owned result ≡ spec.nothing kind }
{
    match kind {
        AggKind::CountStar | AggKind::Count => ValueRef::Wide(0),
        AggKind::Sum | AggKind::Min | AggKind::Max => ValueRef::Null,
    }
}

/// What an aggregate keeps of one value.
pub fn alone<'a>(kind: AggKind, value: ValueRef<'a>) -> ValueRef<'a>
    ensures { owned result ≡ spec.alone kind (owned value.entry) }
{
    match kind {
        AggKind::CountStar => ValueRef::Wide(1),
        AggKind::Count if is_null(value) => ValueRef::Wide(0),
        AggKind::Count => ValueRef::Wide(1),
        AggKind::Sum => widened(value),
        AggKind::Min | AggKind::Max => value,
    }
}

/// What an aggregate keeps of one part, by what it kept of it.
pub fn again<'a>(kind: AggKind, kept: ValueRef<'a>) -> ValueRef<'a>
    ensures { owned result ≡ spec.again kind (owned kept.entry) }
{
    match kind {
        AggKind::CountStar | AggKind::Count => wide(kept),
        AggKind::Sum => widened(kept),
        AggKind::Min | AggKind::Max => kept,
    }
}

/// The value that is made of it: a count or a sum outside 64 bits is NULL.
pub fn finished<'a>(kept: ValueRef<'a>) -> ValueRef<'a>
    ensures { owned result ≡ aggregate.final_value (owned kept.entry) }
{
    match kept {
        ValueRef::Wide(number) => match i64::try_from(number) {
            Ok(number) => ValueRef::Int(number),
            Err(_) => ValueRef::Null,
        },
        other => other,
    }
}
