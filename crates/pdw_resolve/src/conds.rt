//! Search conditions: SQL-92, 8.2 to 8.12.

ghost use Rattle.std.specs.Prelude.{◌≡◌, [], ◌∷◌, map, IfOk};
ghost use Rattle.std.specs.List.{flat_map, list_all};
ghost use Rattle.std.specs.Option.{option_map};
ghost use Rattle.pdw_base.specs.declared.value.Kind.{Kind as ValueKind};
ghost use Rattle.pdw_expr.specs.declared.cond.Cmp.TheVariants.{Eq, Ge, Le};
ghost use Rattle.pdw_expr.specs.declared.cond.Cond.TheVariants as condition_is;
ghost use Rattle.pdw_walk.specs.Conds as spec;
ghost use Rattle.pdw_walk.specs.Exprs.{same_kind, expr as expr_walk};
ghost use Rattle.pdw_walk.specs.Queries.{condition};
ghost use Rattle.pdw_walk.specs.Walk.{Gives, Walks, each, gathering, over};

use crate::exprs::expr;
use crate::place::Place;
use crate::walk::Walk;
use pdw_base::{Kind, NoMemory, Truth};
use pdw_expr::{Cmp, Cond, Scalar};
use pdw_syntax::{SqlCond, SqlExpr};
use pdw_walk::{JudgeFault, Typed};
use sqlite_items::{Boxed, Items as ListOf};
use std::alloc::{AllocError, Global};
use std::mem::drop;

/// Whether two kinds are the same.
pub fn is_same_kind(a: Kind, b: Kind) -> bool
    ensures { result ≡ same_kind a b }
{
    match (a, b) {
        (Kind::Int, Kind::Int) => true,
        (Kind::Text, Kind::Text) => true,
        (Kind::Wide, Kind::Wide) => true,
        _ => false,
    }
}

fn negated_if(alloc: Global, negated: bool, cond: Cond) -> Result<Cond, AllocError>
    ensures { IfOk result (λ made. made ≡ spec.negated_if negated cond) }
{
    if negated {
        return Ok(Cond::Not(Boxed::new(alloc, cond)?));
    }
    Ok(cond)
}

// Two operands that were walked, compared.
#[tactic(auto, unfolding(pdw_walk::specs::Conds::comparison))]
fn comparison(comparison: Cmp, left: Typed, right: Typed) -> Result<Cond, JudgeFault>
    ensures { Gives (spec.comparison comparison left right) result }
{
    if is_same_kind(left.kind, right.kind) {
        return Ok(Cond::Compare(comparison, left.scalar, right.scalar));
    }
    drop(left);
    drop(right);
    Err(JudgeFault::TypeMismatch)
}

#[tactic(auto, unfolding(pdw_walk::specs::Conds::compared))]
fn compare(
    alloc: Global,
    walk: &mut Walk,
    place: &Place<'_>,
    operator: Cmp,
    left: &SqlExpr,
    right: &SqlExpr,
) -> Result<Cond, JudgeFault>
    ensures { Walks (spec.compared operator left.now right.now place.now walk.old) result walk.new }
{
    let first = expr(alloc, walk, place, left)?;
    match expr(alloc, walk, place, right) {
        Ok(second) => comparison(operator, first, second),
        Err(fault) => {
            drop(first);
            Err(fault)
        }
    }
}

// A text and a pattern that were walked.
#[tactic(auto, unfolding(pdw_walk::specs::Conds::like))]
fn pattern_test(
    alloc: Global,
    negated: bool,
    value: Typed,
    pattern: Typed,
) -> Result<Cond, JudgeFault>
    ensures { Gives (spec.like negated value pattern) result }
{
    if is_same_kind(Kind::Text, value.kind) && is_same_kind(Kind::Text, pattern.kind) {
        let made = Cond::Like(value.scalar, pattern.scalar);
        return Ok(negated_if(alloc, negated, made)?);
    }
    drop(value);
    drop(pattern);
    Err(JudgeFault::TypeMismatch)
}

#[tactic(auto, unfolding(pdw_walk::specs::Conds::likened))]
fn like(
    alloc: Global,
    walk: &mut Walk,
    place: &Place<'_>,
    negated: bool,
    value: &SqlExpr,
    pattern: &SqlExpr,
) -> Result<Cond, JudgeFault>
    ensures { Walks (spec.likened negated value.now pattern.now place.now walk.old) result walk.new }
{
    let text = expr(alloc, walk, place, value)?;
    match expr(alloc, walk, place, pattern) {
        Ok(pattern) => pattern_test(alloc, negated, text, pattern),
        Err(fault) => {
            drop(text);
            Err(fault)
        }
    }
}

#[tactic(auto, unfolding(pdw_walk::specs::Conds::null_tested))]
fn is_null(
    alloc: Global,
    walk: &mut Walk,
    place: &Place<'_>,
    negated: bool,
    value: &SqlExpr,
) -> Result<Cond, JudgeFault>
    ensures { Walks (spec.null_tested negated value.now place.now walk.old) result walk.new }
{
    let operand = expr(alloc, walk, place, value)?;
    Ok(negated_if(alloc, negated, Cond::IsNull(operand.scalar))?)
}

// Both conditions.
fn both(alloc: Global, first: Cond, second: Cond) -> Result<Cond, AllocError>
    ensures { IfOk result (λ made. made ≡ condition_is.All (first ∷ second ∷ [])) }
{
    let parts = Vec::from_array(alloc, [first, second])?;
    Ok(Cond::All(ListOf::from_vec(parts)))
}

// value >= low AND value <= high
fn range(alloc: Global, value: Scalar, low: Scalar, high: Scalar) -> Result<Cond, NoMemory>
    ensures { IfOk result (λ made. made ≡ condition_is.All (condition_is.Compare Ge value low ∷ condition_is.Compare Le value high ∷ [])) }
{
    match value.try_copy(alloc) {
        Ok(copy) => {
            let from = Cond::Compare(Cmp::Ge, copy, low);
            let to = Cond::Compare(Cmp::Le, value, high);
            Ok(both(alloc, from, to)?)
        }
        Err(error) => {
            drop(value);
            drop(low);
            drop(high);
            Err(error)
        }
    }
}

// A value and its bounds that were walked.
#[tactic(auto, unfolding(pdw_walk::specs::Conds::between))]
fn range_test(
    alloc: Global,
    negated: bool,
    value: Typed,
    low: Typed,
    high: Typed,
) -> Result<Cond, JudgeFault>
    ensures { Gives (spec.between negated value low high) result }
{
    if is_same_kind(value.kind, low.kind) && is_same_kind(value.kind, high.kind) {
        let made = range(alloc, value.scalar, low.scalar, high.scalar)?;
        return Ok(negated_if(alloc, negated, made)?);
    }
    drop(value);
    drop(low);
    drop(high);
    Err(JudgeFault::TypeMismatch)
}

#[tactic(auto, unfolding(pdw_walk::specs::Conds::ranged))]
fn between(
    alloc: Global,
    walk: &mut Walk,
    place: &Place<'_>,
    negated: bool,
    value: &SqlExpr,
    low: &SqlExpr,
    high: &SqlExpr,
) -> Result<Cond, JudgeFault>
    ensures { Walks (spec.ranged negated value.now low.now high.now place.now walk.old) result walk.new }
{
    let tested = expr(alloc, walk, place, value)?;
    match expr(alloc, walk, place, low) {
        Ok(low) => match expr(alloc, walk, place, high) {
            Ok(high) => range_test(alloc, negated, tested, low, high),
            Err(fault) => {
                drop(tested);
                drop(low);
                Err(fault)
            }
        },
        Err(fault) => {
            drop(tested);
            Err(fault)
        }
    }
}

#[tactic(auto, using(crate::proofs::Turns::turns))]
fn exprs(
    alloc: Global,
    walk: &mut Walk,
    place: &Place<'_>,
    values: &[SqlExpr],
) -> Result<ListOf<Typed>, JudgeFault>
    ensures { Walks (each (λ value. expr_walk value place.now) values.now walk.old) result walk.new }
{
    let mut found = ListOf::new(alloc);
    for value in values {
        found.push(expr(alloc, walk, place, value)?)?;
    }
    Ok(found)
}

fn all_of_kind(wanted: Kind, values: &[Typed]) -> bool
    ensures { result ≡ list_all (λ value. same_kind wanted value.kind) values.now }
{
    values.iter().all(|value| is_same_kind(wanted, value.kind))
}

fn equal(alloc: Global, value: &Scalar, other: &Scalar) -> Result<Cond, NoMemory>
    ensures { IfOk result (λ made. made ≡ condition_is.Compare Eq value.now other.now) }
{
    let left = value.try_copy(alloc)?;
    match other.try_copy(alloc) {
        Ok(right) => Ok(Cond::Compare(Cmp::Eq, left, right)),
        Err(error) => {
            drop(left);
            Err(error)
        }
    }
}

// value = a OR value = b, and so on
fn any_equal(alloc: Global, value: &Scalar, values: &[Typed]) -> Result<Cond, NoMemory>
    ensures { IfOk result (λ made. made ≡ condition_is.Any (map (λ other. condition_is.Compare Eq value.now other.scalar) values.now)) }
{
    let mut parts = ListOf::new(alloc);
    for other in values {
        parts.push(equal(alloc, value, &other.scalar)?)?;
    }
    Ok(Cond::Any(parts))
}

// A value and a list that were walked.
#[tactic(auto, unfolding(pdw_walk::specs::Conds::in_list))]
fn list_test(
    alloc: Global,
    negated: bool,
    value: &Typed,
    values: &[Typed],
) -> Result<Cond, JudgeFault>
    ensures { Gives (spec.in_list negated value.now values.now) result }
{
    if !all_of_kind(value.kind, values) {
        return Err(JudgeFault::TypeMismatch);
    }
    let made = any_equal(alloc, &value.scalar, values)?;
    Ok(negated_if(alloc, negated, made)?)
}

#[tactic(auto, unfolding(pdw_walk::specs::Conds::listed))]
fn in_list(
    alloc: Global,
    walk: &mut Walk,
    place: &Place<'_>,
    negated: bool,
    value: &SqlExpr,
    list: &[SqlExpr],
) -> Result<Cond, JudgeFault>
    ensures { Walks (spec.listed negated value.now list.now place.now walk.old) result walk.new }
{
    let tested = expr(alloc, walk, place, value)?;
    let made = match exprs(alloc, walk, place, list) {
        Ok(values) => list_test(alloc, negated, &tested, values.as_slice()),
        Err(fault) => Err(fault),
    };
    drop(tested);
    made
}

#[cycle(conditions)]
fn has_truth(
    alloc: Global,
    walk: &mut Walk,
    place: &Place<'_>,
    negated: bool,
    part: &SqlCond,
    truth: Truth,
) -> Result<Cond, JudgeFault>
    ensures { Walks (spec.truth_tested negated (condition part.now).test truth place.now walk.old) result walk.new }
{
    let cond = test(alloc, walk, place, part)?;
    let made = Cond::Test(Boxed::new(alloc, cond)?, truth);
    Ok(negated_if(alloc, negated, made)?)
}

#[cycle(conditions)]
#[tactic(auto, using(crate::proofs::Turns::turns))]
fn tests(
    alloc: Global,
    walk: &mut Walk,
    place: &Place<'_>,
    parts: &[SqlCond],
) -> Result<ListOf<Cond>, JudgeFault>
    ensures { Walks (spec.tests (map condition parts.now) place.now walk.old) result walk.new }
{
    let mut found = ListOf::new(alloc);
    for part in parts {
        found.push(test(alloc, walk, place, part)?)?;
    }
    Ok(found)
}

/// A condition where no subquery may stand.
#[cycle(conditions)]
pub fn test(
    alloc: Global,
    walk: &mut Walk,
    place: &Place<'_>,
    cond: &SqlCond,
) -> Result<Cond, JudgeFault>
    ensures { Walks ((condition cond.now).test place.now walk.old) result walk.new }
{
    match cond {
        SqlCond::Compare(comparison, left, right) => {
            compare(alloc, walk, place, *comparison, left, right)
        }
        SqlCond::Like {
            negated,
            value,
            pattern,
        } => like(alloc, walk, place, *negated, value, pattern),
        SqlCond::IsNull { negated, value } => is_null(alloc, walk, place, *negated, value),
        SqlCond::Between {
            negated,
            value,
            low,
            high,
        } => between(alloc, walk, place, *negated, value, low, high),
        SqlCond::InList {
            negated,
            value,
            list,
        } => in_list(alloc, walk, place, *negated, value, list.as_slice()),
        SqlCond::InQuery { .. } | SqlCond::Exists(_) => Err(JudgeFault::SubqueryPlace),
        SqlCond::Test {
            negated,
            cond,
            truth,
        } => has_truth(alloc, walk, place, *negated, cond.get(), *truth),
        SqlCond::Not(part) => {
            let cond = test(alloc, walk, place, part.get())?;
            Ok(Cond::Not(Boxed::new(alloc, cond)?))
        }
        SqlCond::All(parts) => Ok(Cond::All(tests(alloc, walk, place, parts.as_slice())?)),
        SqlCond::Any(parts) => Ok(Cond::Any(tests(alloc, walk, place, parts.as_slice())?)),
        SqlCond::Paren(part) => test(alloc, walk, place, part.get()),
    }
}

/// Whether a subquery stands in a condition.
#[cycle(nested)]
pub fn is_nested(cond: &SqlCond) -> bool
    ensures { result ≡ (condition cond.now).nested }
{
    match cond {
        SqlCond::Compare(..)
        | SqlCond::Like { .. }
        | SqlCond::IsNull { .. }
        | SqlCond::Between { .. }
        | SqlCond::InList { .. } => false,
        SqlCond::InQuery { .. } | SqlCond::Exists(_) => true,
        SqlCond::Test { cond, .. } => is_nested(cond.get()),
        SqlCond::Not(part) => is_nested(part.get()),
        SqlCond::All(parts) => is_any_nested(parts.as_slice()),
        SqlCond::Any(parts) => is_any_nested(parts.as_slice()),
        SqlCond::Paren(part) => is_nested(part.get()),
    }
}

#[cycle(nested)]
fn is_any_nested(parts: &[SqlCond]) -> bool
    ensures { result ≡ spec.any_nested (map condition parts.now) }
{
    for part in parts {
        if is_nested(part) {
            return true;
        }
    }
    false
}

// One conjunct after those before it.
fn tested_one(
    alloc: Global,
    walk: &mut Walk,
    place: &Place<'_>,
    cond: &SqlCond,
    before: ListOf<Cond>,
) -> Result<ListOf<Cond>, JudgeFault>
    ensures { Walks (gathering (λ part. part.test place.now) before (condition cond.now) walk.old) result walk.new }
{
    let made = test(alloc, walk, place, cond)?;
    let mut found = before;
    found.push(made)?;
    Ok(found)
}

// The conjuncts of conditions with AND between them, after those before them.
#[cycle(tested)]
#[tactic(auto, using(crate::proofs::Turns::turns))]
fn tested_parts(
    alloc: Global,
    walk: &mut Walk,
    place: &Place<'_>,
    parts: &[SqlCond],
    before: ListOf<Cond>,
) -> Result<ListOf<Cond>, JudgeFault>
    ensures { Walks (spec.tested_after place.now before (flat_map (λ part. part.conjuncts) (map condition parts.now)) walk.old) result walk.new }
{
    let mut found = before;
    for part in parts {
        found = tested_after(alloc, walk, place, part, found)?;
    }
    Ok(found)
}

// The conjuncts of a condition after those before them.
#[cycle(tested)]
fn tested_after(
    alloc: Global,
    walk: &mut Walk,
    place: &Place<'_>,
    cond: &SqlCond,
    before: ListOf<Cond>,
) -> Result<ListOf<Cond>, JudgeFault>
    ensures { Walks (spec.tested_after place.now before (condition cond.now).conjuncts walk.old) result walk.new }
{
    match cond {
        SqlCond::All(parts) => tested_parts(alloc, walk, place, parts.as_slice(), before),
        SqlCond::Paren(part) => tested_after(alloc, walk, place, part.get(), before),
        SqlCond::InQuery { .. }
        | SqlCond::Exists(_)
        | SqlCond::Not(_)
        | SqlCond::Compare(..)
        | SqlCond::Like { .. }
        | SqlCond::IsNull { .. }
        | SqlCond::Between { .. }
        | SqlCond::InList { .. }
        | SqlCond::Test { .. }
        | SqlCond::Any(_) => tested_one(alloc, walk, place, cond, before),
    }
}

/// The conjuncts of ON or of HAVING, where no subquery may stand.
#[tactic(auto, unfolding(pdw_walk::specs::Conds::tested))]
pub fn tested(
    alloc: Global,
    walk: &mut Walk,
    place: &Place<'_>,
    cond: &Option<SqlCond>,
) -> Result<ListOf<Cond>, JudgeFault>
    ensures { Walks (spec.tested place.now (option_map condition cond.now) walk.old) result walk.new }
{
    match cond {
        Some(cond) => tested_after(alloc, walk, place, cond, ListOf::new(alloc)),
        None => Ok(ListOf::new(alloc)),
    }
}
