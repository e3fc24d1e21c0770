ghost use Rattle.std.specs.Prelude.{◌≡◌};
ghost use Rattle.pdw_base.specs.Schema.{cell};
ghost use Rattle.pdw_base.specs.Value.{owned};
ghost use Rattle.pdw_expr.specs.Cond.{truth_of, all_true, any_true};
ghost use Rattle.pdw_expr.specs.Scalar.{value_of};

use crate::arithmetic::{compute, negate};
use crate::comparison::{compared_by, is_null};
use crate::like::is_like;
use crate::logic::{and, is, not, or};
use crate::{Cond, Scalar};
use pdw_base::{ColId, Row, Schema, Truth, ValueRef};
use sqlite_items::at;

// The value of a column, NULL where the row has none.
fn column<'a>(c: ColId, s: &Schema, r: &'a Row) -> ValueRef<'a>
    ensures { owned result ≡ cell s.now r.now c }
{
    match s.place(c) {
        Some(place) => match at(r.values(), place) {
            Some(value) => value.as_ref(),
            None => ValueRef::Null,
        },
        None => ValueRef::Null,
    }
}

/// The value of an expression over a row: SQL-92, 6.12. It takes no memory. A column that the row does not have is NULL.
pub fn eval_scalar<'a>(e: &'a Scalar, s: &Schema, r: &'a Row) -> ValueRef<'a>
    ensures { owned result ≡ value_of e.now (cell s.now r.now) }
{
    match e {
        Scalar::Col(c) => column(*c, s, r),
        Scalar::Lit(value) => value.as_ref(),
        Scalar::Neg(operand) => negate(eval_scalar(operand.get(), s, r)),
        Scalar::Chain(first, rest) => {
            let mut value = eval_scalar(first.get(), s, r);
            for link in rest.as_slice() {
                value = compute(link.0, value, eval_scalar(&link.1, s, r));
            }
            value
        }
    }
}

/// The truth of a condition over a row: SQL-92, 8.12. It takes no memory.
#[cycle(evaluate)]
pub fn eval_cond(c: &Cond, s: &Schema, r: &Row) -> Truth
    ensures { result ≡ truth_of c.now (cell s.now r.now) }
{
    match c {
        Cond::Compare(op, a, b) => compared_by(*op, eval_scalar(a, s, r), eval_scalar(b, s, r)),
        Cond::Like(text, pattern) => is_like(eval_scalar(text, s, r), eval_scalar(pattern, s, r)),
        Cond::IsNull(a) => is_null(eval_scalar(a, s, r)),
        Cond::Test(part, truth) => is(eval_cond(part.get(), s, r), *truth),
        Cond::Not(part) => not(eval_cond(part.get(), s, r)),
        Cond::All(parts) => eval_all(parts.as_slice(), s, r),
        Cond::Any(parts) => eval_any(parts.as_slice(), s, r),
    }
}

#[cycle(evaluate)]
fn eval_all(parts: &[Cond], s: &Schema, r: &Row) -> Truth
    ensures { result ≡ all_true parts.now (cell s.now r.now) }
{
    let mut truth = Truth::True;
    for part in parts {
        truth = and(truth, eval_cond(part, s, r));
    }
    truth
}

#[cycle(evaluate)]
fn eval_any(parts: &[Cond], s: &Schema, r: &Row) -> Truth
    ensures { result ≡ any_true parts.now (cell s.now r.now) }
{
    let mut truth = Truth::False;
    for part in parts {
        truth = or(truth, eval_cond(part, s, r));
    }
    truth
}
