ghost use Rattle.std.specs.Prelude.{◌≡◌, ◌+ℤ◌, ◌-ℤ◌, ◌*ℤ◌};
ghost use Rattle.pdw_base.specs.Value.{owned};
ghost use Rattle.pdw_expr.specs.Arithmetic.{computed, fitted, negated, on_numbers};
ghost use Rattle.pdw_expr.specs.declared.scalar.Arith.TheVariants as sign;

use crate::Arith;
use pdw_base::ValueRef;

fn add<'a>(a: i64, b: i64) -> ValueRef<'a>
    ensures { owned result ≡ on_numbers sign.Add a b }
{
    match a.checked_add(b) {
        Some(sum) => ValueRef::Int(sum),
        None => ValueRef::Null,
    }
}

fn subtract<'a>(a: i64, b: i64) -> ValueRef<'a>
    ensures { owned result ≡ on_numbers sign.Sub a b }
{
    match a.checked_sub(b) {
        Some(difference) => ValueRef::Int(difference),
        None => ValueRef::Null,
    }
}

fn multiply<'a>(a: i64, b: i64) -> ValueRef<'a>
    ensures { owned result ≡ on_numbers sign.Mul a b }
{
    match a.checked_mul(b) {
        Some(product) => ValueRef::Int(product),
        None => ValueRef::Null,
    }
}

fn divide<'a>(a: i64, b: i64) -> ValueRef<'a>
    ensures { owned result ≡ on_numbers sign.Div a b }
{
    match a.checked_div(b) {
        Some(quotient) => ValueRef::Int(quotient),
        None => ValueRef::Null,
    }
}

// The remainder by -1 is 0 also where the quotient is out of range.
fn remainder<'a>(a: i64, b: i64) -> ValueRef<'a>
    ensures { owned result ≡ on_numbers sign.Rem a b }
{
    if b == 0 {
        ValueRef::Null
    } else if b == -1 {
        ValueRef::Int(0)
    } else {
        ValueRef::Int(a % b)
    }
}

fn of_numbers<'a>(op: Arith, a: i64, b: i64) -> ValueRef<'a>
    ensures { owned result ≡ on_numbers op a b }
{
    match op {
        Arith::Add => add(a, b),
        Arith::Sub => subtract(a, b),
        Arith::Mul => multiply(a, b),
        Arith::Div => divide(a, b),
        Arith::Rem => remainder(a, b),
    }
}

/// One operator between two values: SQL-92, 6.12. An operand that is NULL or no number, a zero divisor and a result
/// outside 64 bits give NULL. It takes no memory.
pub fn compute<'a>(op: Arith, a: ValueRef<'_>, b: ValueRef<'_>) -> ValueRef<'a>
    ensures { owned result ≡ computed op (owned a.entry) (owned b.entry) }
{
    match (a, b) {
        (ValueRef::Int(a), ValueRef::Int(b)) => of_numbers(op, a, b),
        _ => ValueRef::Null,
    }
}

/// The value with its sign changed, NULL where that lies outside 64 bits or the value is no number.
pub fn negate<'a>(a: ValueRef<'_>) -> ValueRef<'a>
    ensures { owned result ≡ negated (owned a.entry) }
{
    let ValueRef::Int(number) = a else {
        return ValueRef::Null;
    };
    match number.checked_neg() {
        Some(opposite) => ValueRef::Int(opposite),
        None => ValueRef::Null,
    }
}
