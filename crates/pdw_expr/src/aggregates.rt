//! The values of aggregates.

ghost use Rattle.std.specs.Prelude.{◌≡◌, IfOk, fold, pos};
ghost use Rattle.std.specs.Int.{int_wrap, w128};
ghost use Rattle.pdw_expr.specs.Comparison as comparison;
ghost use Rattle.pdw_base.specs.Comparison.{number};
ghost use Rattle.pdw_expr.specs.Aggregate as spec;
ghost use Rattle.pdw_expr.specs.Arithmetic.{fitted};

use crate::AggKind;
use pdw_base::{NoMemory, Value, order};
use sqlite_items::Items as ListOf;
use std::alloc::Global;

// The number, or NULL where it lies outside 64 bits.
fn fitted_value(number: i128) -> Value
    ensures { result ≡ fitted number }
{
    match i64::try_from(number) {
        Ok(number) => Value::Int(number),
        Err(_) => Value::Null,
    }
}

fn counted(count: usize) -> Value
    ensures { result ≡ spec.final_value (spec.wide (pos count)) }
{
    fitted_value(count as i128)
}

fn number_of(value: &Value) -> i128
    ensures { result ≡ number value.now }
{
    match value {
        Value::Null | Value::Text(_) => 0,
        Value::Int(number) => i128::from(*number),
        Value::Wide(number) => *number,
    }
}

// The sum, modulo 2^128.
fn total(values: &[Value]) -> i128
    ensures { result ≡ int_wrap w128 (spec.total values.now) }
{
    let mut sum: i128 = 0;
    for value in values {
        sum = sum.wrapping_add(number_of(value));
    }
    sum
}

fn summed(values: &[Value]) -> Value
    ensures { result ≡ spec.final_value (spec.summed values.now) }
{
    if values.is_empty() {
        Value::Null
    } else {
        fitted_value(total(values))
    }
}

fn is_null(value: &Value) -> bool
    ensures { result ≡ comparison.is_null value.now }
{
    matches!(value, Value::Null)
}

// The values without NULL.
fn present(alloc: Global, values: &[Value]) -> Result<ListOf<Value>, NoMemory>
    ensures { IfOk result (λ kept. kept ≡ spec.present values.now) }
{
    let mut kept = ListOf::new(alloc);
    for value in values {
        if !is_null(value) {
            kept.push(value.try_copy(alloc)?)?;
        }
    }
    Ok(kept)
}

fn lesser<'a>(first: &'a Value, second: &'a Value) -> &'a Value
    ensures { result.now ≡ spec.lesser first.now second.now }
{
    if order(second.as_ref(), first.as_ref()).is_lt() {
        second
    } else {
        first
    }
}

fn greater<'a>(first: &'a Value, second: &'a Value) -> &'a Value
    ensures { result.now ≡ spec.greater first.now second.now }
{
    if order(second.as_ref(), first.as_ref()).is_gt() {
        second
    } else {
        first
    }
}

fn least<'a>(first: &'a Value, rest: &'a [Value]) -> &'a Value
    ensures { result.now ≡ fold spec.lesser first.now rest.now }
{
    let mut least = first;
    for value in rest {
        least = lesser(least, value);
    }
    least
}

fn greatest<'a>(first: &'a Value, rest: &'a [Value]) -> &'a Value
    ensures { result.now ≡ fold spec.greater first.now rest.now }
{
    let mut greatest = first;
    for value in rest {
        greatest = greater(greatest, value);
    }
    greatest
}

// A count or a sum outside 64 bits is NULL.
fn final_value(alloc: Global, value: &Value) -> Result<Value, NoMemory>
    ensures { IfOk result (λ last. last ≡ spec.final_value value.now) }
{
    match value {
        Value::Wide(number) => Ok(fitted_value(*number)),
        _ => value.try_copy(alloc),
    }
}

fn final_least(alloc: Global, values: &[Value]) -> Result<Value, NoMemory>
    ensures { IfOk result (λ value. value ≡ spec.final_value (spec.least values.now)) }
{
    match values.split_first() {
        Some((first, rest)) => final_value(alloc, least(first, rest)),
        None => Ok(Value::Null),
    }
}

fn final_greatest(alloc: Global, values: &[Value]) -> Result<Value, NoMemory>
    ensures { IfOk result (λ value. value ≡ spec.final_value (spec.greatest values.now)) }
{
    match values.split_first() {
        Some((first, rest)) => final_value(alloc, greatest(first, rest)),
        None => Ok(Value::Null),
    }
}

/// The value of an aggregate over the values of its argument: SQL-92, 6.5.
pub fn aggregated(alloc: Global, kind: AggKind, values: &[Value]) -> Result<Value, NoMemory>
    ensures { IfOk result (λ value. value ≡ spec.aggregated kind values.now) }
{
    let present = present(alloc, values)?;
    match kind {
        AggKind::CountStar => Ok(counted(values.len())),
        AggKind::Count => Ok(counted(present.len())),
        AggKind::Sum => Ok(summed(present.as_slice())),
        AggKind::Min => final_least(alloc, present.as_slice()),
        AggKind::Max => final_greatest(alloc, present.as_slice()),
    }
}
