//! Value expressions: SQL-92, 6.11 to 6.14.

ghost use Rattle.std.specs.Prelude.{◌≡◌, [], ◌∷◌, map, IfOk};
ghost use Rattle.std.specs.List.{list_all};
ghost use Rattle.std.specs.Option.{option_map};
ghost use Rattle.pdw_base.specs.declared.value.Kind.TheVariants as kind;
ghost use Rattle.pdw_walk.specs.Exprs as spec;
ghost use Rattle.pdw_walk.specs.Walk.{Gives, Walks, each, listed};

use crate::lookup::column;
use crate::place::Place;
use crate::walk::Walk;
use pdw_base::{Kind, NoMemory, Value};
use pdw_expr::{Agg, AggKind, Arith, Scalar};
use pdw_syntax::{ColRef, SqlExpr};
use pdw_walk::{JudgeFault, Numbered, Typed};
use sqlite_items::{Boxed, Items as ListOf};
use std::alloc::Global;
use std::mem::drop;

/// Whether an expression is of this kind.
pub fn is_of_kind(wanted: Kind, value: &Typed) -> bool
    ensures { result ≡ spec.same_kind wanted value.now.kind }
{
    wanted == value.kind
}

/// Refuses an expression that is not of this kind.
pub fn have_to_be(wanted: Kind, value: &Typed) -> Result<(), JudgeFault>
    ensures { Gives (spec.have_to_be wanted (value.now ∷ [])) result }
{
    if is_of_kind(wanted, value) {
        Ok(())
    } else {
        Err(JudgeFault::TypeMismatch)
    }
}

// A computed expression.
fn typed(kind: Kind, scalar: Scalar) -> Typed
    ensures { result ≡ spec.typed kind scalar }
{
    Typed {
        kind,
        scalar,
        bare: None,
    }
}

// A column or an aggregate by itself.
fn column_typed(kind: Kind, column: Numbered) -> Typed
    ensures { result ≡ spec.column_typed kind column }
{
    Typed {
        kind,
        scalar: Scalar::Col(column.number),
        bare: Some(column),
    }
}

// A column reference as an expression.
fn column_expr(
    alloc: Global,
    walk: &mut Walk,
    place: &Place<'_>,
    reference: &ColRef,
) -> Result<Typed, JudgeFault>
    ensures { Walks (spec.column_expr place.now reference.now walk.old) result walk.new }
{
    let met = column(alloc, walk, place, reference)?;
    Ok(column_typed(met.kind, met.column))
}

// An operand with its sign.
fn with_sign(alloc: Global, minus: bool, value: Scalar) -> Result<Scalar, NoMemory>
    ensures { IfOk result (λ signed. signed ≡ spec.with_sign minus value) }
{
    if minus {
        Ok(Scalar::Neg(Boxed::new(alloc, value)?))
    } else {
        Ok(value)
    }
}

// A number with its sign.
#[tactic(auto, unfolding(pdw_walk::specs::Exprs::signed))]
fn signed(alloc: Global, minus: bool, value: Typed) -> Result<Typed, JudgeFault>
    ensures { Gives (spec.signed minus value) result }
{
    match have_to_be(Kind::Int, &value) {
        Ok(()) => Ok(typed(Kind::Int, with_sign(alloc, minus, value.scalar)?)),
        Err(fault) => {
            drop(value);
            Err(fault)
        }
    }
}

// Whether these operands are numbers.
fn operands_are_numbers(links: &[(Arith, Typed)]) -> bool
    ensures { result ≡ list_all (λ link. spec.same_kind kind.Int link.1.kind) links.now }
{
    links.iter().all(|link| is_of_kind(Kind::Int, &link.1))
}

// Whether all operands of a chain are numbers.
fn are_numbers(first: &Typed, links: &[(Arith, Typed)]) -> bool
    ensures { result ≡ spec.are_numbers first.now links.now }
{
    is_of_kind(Kind::Int, first) && operands_are_numbers(links)
}

// The operands with their operators, without their kinds.
fn scalars(alloc: Global, links: Vec<(Arith, Typed)>) -> Result<ListOf<(Arith, Scalar)>, NoMemory>
    ensures { IfOk result (λ scalars. scalars ≡ map (λ link. (link.0, link.1.scalar)) links.items) }
{
    let mut scalars = ListOf::new(alloc);
    for (operator, value) in links {
        scalars.push((operator, value.scalar))?;
    }
    Ok(scalars)
}

// A chain of numbers.
#[tactic(auto, unfolding(pdw_walk::specs::Exprs::chained))]
fn chained(alloc: Global, first: Typed, rest: Vec<(Arith, Typed)>) -> Result<Typed, JudgeFault>
    ensures { Gives (spec.chained first rest.items) result }
{
    if are_numbers(&first, rest.as_slice()) {
        let start = Boxed::new(alloc, first.scalar)?;
        return Ok(typed(Kind::Int, Scalar::Chain(start, scalars(alloc, rest)?)));
    }
    drop(first);
    Err(JudgeFault::TypeMismatch)
}

// Refuses an argument that the aggregate can't have.
fn argument_fits(aggregate: AggKind, argument: &Typed) -> Result<(), JudgeFault>
    ensures { Gives (spec.argument_fits aggregate argument.now) result }
{
    match aggregate {
        AggKind::Sum => have_to_be(Kind::Int, argument),
        _ => Ok(()),
    }
}

// The kind of an aggregate by that of its argument.
fn aggregate_kind(aggregate: AggKind, argument: Kind) -> Kind
    ensures { result ≡ spec.aggregate_kind aggregate argument }
{
    match aggregate {
        AggKind::Min | AggKind::Max => argument,
        _ => Kind::Int,
    }
}

// Gives an aggregate its number.
#[tactic(auto, unfolding(pdw_walk::specs::Exprs::made_aggregate, pdw_walk::specs::Walk::add_aggregate))]
fn made_aggregate(
    walk: &mut Walk,
    aggregate: AggKind,
    argument: Kind,
    value: Option<Scalar>,
) -> Result<Typed, JudgeFault>
    ensures { Walks (spec.made_aggregate aggregate argument value walk.old) result walk.new }
{
    match walk.made_number() {
        Ok(column) => {
            walk.add_aggregate(Agg {
                kind: aggregate,
                arg: value,
                out: column.number,
            })?;
            Ok(column_typed(aggregate_kind(aggregate, argument), column))
        }
        Err(fault) => {
            drop(value);
            Err(fault)
        }
    }
}

// An aggregate of an argument that was walked.
#[tactic(auto, unfolding(pdw_walk::specs::Exprs::aggregate_of))]
fn aggregate_of(walk: &mut Walk, aggregate: AggKind, argument: Typed) -> Result<Typed, JudgeFault>
    ensures { Walks (spec.aggregate_of aggregate argument walk.old) result walk.new }
{
    match argument_fits(aggregate, &argument) {
        Ok(()) => made_aggregate(walk, aggregate, argument.kind, Some(argument.scalar)),
        Err(fault) => {
            drop(argument);
            Err(fault)
        }
    }
}

// The place of an aggregate's argument.
fn argument_place<'a>(place: &Place<'a>) -> Place<'a>
    ensures { result ≡ spec.argument_place place.now }
{
    Place {
        own: place.own,
        outers: place.outers,
        reaches: place.reaches,
        keys: None,
    }
}

// An aggregate, where one may stand.
#[cycle(exprs)]
fn aggregated(
    alloc: Global,
    walk: &mut Walk,
    place: &Place<'_>,
    aggregate: AggKind,
    argument: &Option<Boxed<SqlExpr>>,
) -> Result<Typed, JudgeFault>
    ensures { Walks (spec.aggregated aggregate (option_map spec.expr argument.now) place.now walk.old) result walk.new }
{
    if place.keys.is_none() {
        return Err(JudgeFault::AggregatePlace);
    }
    match argument {
        Some(value) => {
            let argument = expr(alloc, walk, &argument_place(place), value.get())?;
            aggregate_of(walk, aggregate, argument)
        }
        None => made_aggregate(walk, aggregate, Kind::Int, None),
    }
}

// The operands of a chain with their operators.
#[cycle(exprs)]
#[tactic(auto, using(crate::proofs::Turns::turns))]
fn operands(
    alloc: Global,
    walk: &mut Walk,
    place: &Place<'_>,
    rest: &[(Arith, SqlExpr)],
) -> Result<Vec<(Arith, Typed)>, JudgeFault>
    ensures { Walks (each (spec.operand_of place.now) rest.now walk.old) (listed result) walk.new }
{
    let mut found = Vec::new(alloc);
    for link in rest {
        let operand = expr(alloc, walk, place, &link.1)?;
        found.push((link.0, operand))?;
    }
    Ok(found)
}

/// An expression with numbers in place of names.
#[cycle(exprs)]
pub fn expr(
    alloc: Global,
    walk: &mut Walk,
    place: &Place<'_>,
    value: &SqlExpr,
) -> Result<Typed, JudgeFault>
    ensures { Walks (spec.expr value.now place.now walk.old) result walk.new }
{
    match value {
        SqlExpr::Col(reference) => column_expr(alloc, walk, place, reference),
        SqlExpr::Number(number) => Ok(typed(Kind::Int, Scalar::Lit(Value::Int(*number)))),
        SqlExpr::Text(text) => {
            let copy = text.try_copy(alloc)?;
            Ok(typed(Kind::Text, Scalar::Lit(Value::Text(copy))))
        }
        SqlExpr::Signed { minus, value } => {
            let operand = expr(alloc, walk, place, value.get())?;
            signed(alloc, *minus, operand)
        }
        SqlExpr::Chain { first, rest } => {
            let start = expr(alloc, walk, place, first.get())?;
            let links = operands(alloc, walk, place, rest.as_slice())?;
            chained(alloc, start, links)
        }
        SqlExpr::Agg { kind, arg } => aggregated(alloc, walk, place, *kind, arg),
        SqlExpr::Paren(inner) => expr(alloc, walk, place, inner.get()),
    }
}
