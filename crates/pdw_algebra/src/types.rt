//! The kinds of expressions and aggregates over columns.

ghost use Rattle.std.specs.Prelude.{◌≡◌, ◌==◌};
ghost use Rattle.std.specs.List.{find, list_all};
ghost use Rattle.std.specs.Option.{option_copied};
ghost use Rattle.pdw_algebra.specs.Schema as schema;
ghost use Rattle.pdw_algebra.specs.Types as spec;

use pdw_base::{ColId, Kind, Value};
use pdw_catalog::MOST_TEXT_BYTES;
use pdw_expr::{Agg, AggKind, Arith, Scalar};

fn first_of(columns: &[(ColId, Kind)], c: ColId) -> Option<&(ColId, Kind)>
    ensures { option_copied result ≡ find (λ column. column.0.0 == c.0) columns.now }
{
    columns.iter().find(|column| column.0.0 == c.0)
}

/// The kind of a column, or None where it is not there.
#[tactic(auto, using(crate::proofs::KindLemmas::by_find))]
pub fn kind_at(columns: &[(ColId, Kind)], c: ColId) -> Option<Kind>
    ensures { result ≡ schema.kind_at columns.now c }
{
    match first_of(columns, c) {
        Some(column) => Some(column.1),
        None => None,
    }
}

fn literal_kind(literal: &Value) -> Option<Kind>
    ensures { result ≡ spec.literal_kind literal.now }
{
    match literal {
        Value::Int(_) => Some(Kind::Int),
        Value::Text(text) if text.bytes().len() <= MOST_TEXT_BYTES => Some(Kind::Text),
        _ => None,
    }
}

fn is_number(kind: Option<Kind>) -> bool
    ensures { result ≡ spec.is_number kind }
{
    matches!(kind, Some(Kind::Int))
}

fn number_if(is: bool) -> Option<Kind>
    ensures { result ≡ spec.number_if is }
{
    if is { Some(Kind::Int) } else { None }
}

#[cycle(kinds)]
fn are_numbers(columns: &[(ColId, Kind)], links: &[(Arith, Scalar)]) -> bool
    ensures { result ≡ list_all (λ link. spec.is_number (spec.scalar_kind columns.now link.1)) links.now }
{
    for link in links {
        if !is_number(scalar_kind(columns, &link.1)) {
            return false;
        }
    }
    true
}

/// The kind of an expression, or None where a column is not there or an operand has not the operator's kind.
#[cycle(kinds)]
pub fn scalar_kind(columns: &[(ColId, Kind)], e: &Scalar) -> Option<Kind>
    ensures { result ≡ spec.scalar_kind columns.now e.now }
{
    match e {
        Scalar::Col(c) => kind_at(columns, *c),
        Scalar::Lit(literal) => literal_kind(literal),
        Scalar::Neg(operand) => number_if(is_number(scalar_kind(columns, operand.get()))),
        Scalar::Chain(first, rest) => {
            if !is_number(scalar_kind(columns, first.get())) {
                return None;
            }
            number_if(are_numbers(columns, rest.as_slice()))
        }
    }
}

fn kind_over(kind: AggKind, argument: Option<Kind>) -> Option<Kind>
    ensures { result ≡ spec.kind_over kind argument }
{
    match kind {
        AggKind::CountStar => None,
        AggKind::Count => number_if(argument.is_some()),
        AggKind::Sum => number_if(is_number(argument)),
        AggKind::Min | AggKind::Max => argument,
    }
}

fn kind_without(kind: AggKind) -> Option<Kind>
    ensures { result ≡ spec.kind_without kind }
{
    match kind {
        AggKind::CountStar => Some(Kind::Int),
        _ => None,
    }
}

/// The kind of an aggregate, or None where its argument has not a kind that it takes. Exactly COUNT of `*` has no argument.
pub fn aggregate_kind(columns: &[(ColId, Kind)], agg: &Agg) -> Option<Kind>
    ensures { result ≡ spec.aggregate_kind columns.now agg.now }
{
    match &agg.arg {
        Some(argument) => kind_over(agg.kind, scalar_kind(columns, argument)),
        None => kind_without(agg.kind),
    }
}
