//! The truth of the conditions that hold no query.

ghost use Rattle.std.specs.Prelude.{◌≡◌, IfOk, map};
ghost use Rattle.pdw_expr.specs.Comparison as comparison;
ghost use Rattle.pdw_expr.specs.Like as likes;
ghost use Rattle.pdw_expr.specs.Logic.{decided, is_truth};
ghost use Rattle.pdw_expr.specs.Predicates as predicates;
ghost use Rattle.pdw_semantics.specs.Environment.{group_of};
ghost use Rattle.pdw_semantics.specs.Exprs as exprs;

use crate::exprs::value_of;
use crate::scope::Scope;
use pdw_base::{NoMemory, Row, Truth, Value};
use pdw_expr::{Cmp, and, compared_by, is, is_like, is_null, not, or, truth_from};
use pdw_syntax::SqlExpr;
use sqlite_items::Items as ListOf;
use std::alloc::Global;

/// NOT of the truth where that is asked.
fn negated_if(negated: bool, truth: Truth) -> Truth
    ensures { result ≡ predicates.negated_if negated truth }
{
    if negated { not(truth) } else { truth }
}

/// A comparison: SQL-92, 8.2.
pub fn comparison(
    alloc: Global,
    op: Cmp,
    left: &SqlExpr,
    right: &SqlExpr,
    rows: &[Scope],
    outers: &[Scope],
) -> Result<Truth, NoMemory>
    ensures { IfOk result (λ truth. truth ≡ comparison.comparison op (exprs.value_of left.now (group_of rows.now outers.now)) (exprs.value_of right.now (group_of rows.now outers.now))) }
{
    let left = value_of(alloc, left, rows, outers)?;
    let right = value_of(alloc, right, rows, outers)?;
    Ok(compared_by(op, left.as_ref(), right.as_ref()))
}

/// LIKE: SQL-92, 8.5.
pub fn likeness(
    alloc: Global,
    negated: bool,
    value: &SqlExpr,
    pattern: &SqlExpr,
    rows: &[Scope],
    outers: &[Scope],
) -> Result<Truth, NoMemory>
    ensures { IfOk result (λ truth. truth ≡ predicates.negated_if negated (likes.like (exprs.value_of value.now (group_of rows.now outers.now)) (exprs.value_of pattern.now (group_of rows.now outers.now)))) }
{
    let value = value_of(alloc, value, rows, outers)?;
    let pattern = value_of(alloc, pattern, rows, outers)?;
    Ok(negated_if(negated, is_like(value.as_ref(), pattern.as_ref())))
}

/// IS NULL: SQL-92, 8.6.
pub fn nullness(
    alloc: Global,
    negated: bool,
    value: &SqlExpr,
    rows: &[Scope],
    outers: &[Scope],
) -> Result<Truth, NoMemory>
    ensures { IfOk result (λ truth. truth ≡ predicates.negated_if negated (decided (comparison.is_null (exprs.value_of value.now (group_of rows.now outers.now))))) }
{
    let value = value_of(alloc, value, rows, outers)?;
    Ok(negated_if(negated, is_null(value.as_ref())))
}

// Whether the value lies between two others.
fn is_between(value: &Value, low: &Value, high: &Value) -> Truth
    ensures { result ≡ predicates.between value.now low.now high.now }
{
    let above = compared_by(Cmp::Ge, value.as_ref(), low.as_ref());
    let below = compared_by(Cmp::Le, value.as_ref(), high.as_ref());
    and(above, below)
}

/// BETWEEN: SQL-92, 8.3.
pub fn betweenness(
    alloc: Global,
    negated: bool,
    value: &SqlExpr,
    low: &SqlExpr,
    high: &SqlExpr,
    rows: &[Scope],
    outers: &[Scope],
) -> Result<Truth, NoMemory>
    ensures { IfOk result (λ truth. truth ≡ predicates.negated_if negated (predicates.between (exprs.value_of value.now (group_of rows.now outers.now)) (exprs.value_of low.now (group_of rows.now outers.now)) (exprs.value_of high.now (group_of rows.now outers.now)))) }
{
    let value = value_of(alloc, value, rows, outers)?;
    let low = value_of(alloc, low, rows, outers)?;
    let high = value_of(alloc, high, rows, outers)?;
    Ok(negated_if(negated, is_between(&value, &low, &high)))
}

// Whether the value equals one of these.
fn is_one_of(value: &Value, list: &[Value]) -> Truth
    ensures { result ≡ predicates.is_one_of value.now list.now }
{
    let mut truth = Truth::False;
    for other in list {
        truth = or(truth, compared_by(Cmp::Eq, value.as_ref(), other.as_ref()));
    }
    truth
}

fn values_over(
    alloc: Global,
    list: &[SqlExpr],
    rows: &[Scope],
    outers: &[Scope],
) -> Result<ListOf<Value>, NoMemory>
    ensures { IfOk result (λ values. values ≡ map (λ y. exprs.value_of y (group_of rows.now outers.now)) list.now) }
{
    let mut values = ListOf::new(alloc);
    for other in list {
        values.push(value_of(alloc, other, rows, outers)?)?;
    }
    Ok(values)
}

/// IN with a list: SQL-92, 8.4.
pub fn is_in_list(
    alloc: Global,
    negated: bool,
    value: &SqlExpr,
    list: &[SqlExpr],
    rows: &[Scope],
    outers: &[Scope],
) -> Result<Truth, NoMemory>
    ensures { IfOk result (λ truth. truth ≡ predicates.negated_if negated (predicates.is_one_of (exprs.value_of value.now (group_of rows.now outers.now)) (map (λ y. exprs.value_of y (group_of rows.now outers.now)) list.now))) }
{
    let value = value_of(alloc, value, rows, outers)?;
    let list = values_over(alloc, list, rows, outers)?;
    Ok(negated_if(negated, is_one_of(&value, list.as_slice())))
}

fn first_column(alloc: Global, row: &Row) -> Result<Value, NoMemory>
    ensures { IfOk result (λ value. value ≡ predicates.first_column row.now) }
{
    match row.values().first() {
        Some(value) => value.try_copy(alloc),
        None => Ok(Value::Null),
    }
}

fn first_columns(alloc: Global, found: &[Row]) -> Result<ListOf<Value>, NoMemory>
    ensures { IfOk result (λ values. values ≡ map predicates.first_column found.now) }
{
    let mut values = ListOf::new(alloc);
    for row in found {
        values.push(first_column(alloc, row)?)?;
    }
    Ok(values)
}

/// IN with the rows that a query gave: SQL-92, 8.4.
pub fn is_in_rows(
    alloc: Global,
    negated: bool,
    value: &SqlExpr,
    found: &[Row],
    rows: &[Scope],
    outers: &[Scope],
) -> Result<Truth, NoMemory>
    ensures { IfOk result (λ truth. truth ≡ predicates.negated_if negated (predicates.is_one_of (exprs.value_of value.now (group_of rows.now outers.now)) (map predicates.first_column found.now))) }
{
    let value = value_of(alloc, value, rows, outers)?;
    let list = first_columns(alloc, found)?;
    Ok(negated_if(negated, is_one_of(&value, list.as_slice())))
}

/// EXISTS, by the rows that its query gave: SQL-92, 8.8.
pub fn existence(found: &[Row]) -> Truth
    ensures { result ≡ decided (predicates.has_rows found.now) }
{
    truth_from(!found.is_empty())
}

/// IS TRUE, IS FALSE or IS UNKNOWN, of a condition with a truth: SQL-92, 8.12.
pub fn tested(negated: bool, found: Truth, wanted: Truth) -> Truth
    ensures { result ≡ predicates.negated_if negated (decided (is_truth found wanted)) }
{
    negated_if(negated, is(found, wanted))
}
