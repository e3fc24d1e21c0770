ghost use Rattle.std.specs.Prelude.{◌≡◌};
ghost use Rattle.pdw_expr.specs.Logic.{conjunction, decided, disjunction, is_truth, negation};

use pdw_base::Truth;

/// The truth of a fact that is decided: True for `true`, and never Unknown.
pub fn truth_from(fact: bool) -> Truth
    ensures { result ≡ decided fact }
{
    if fact { Truth::True } else { Truth::False }
}

/// NOT, which leaves Unknown: SQL-92, 8.12.
pub fn not(a: Truth) -> Truth
    ensures { result ≡ negation a }
{
    match a {
        Truth::True => Truth::False,
        Truth::False => Truth::True,
        Truth::Unknown => Truth::Unknown,
    }
}

/// AND: False where either is, else Unknown where either is: SQL-92, 8.12.
pub fn and(a: Truth, b: Truth) -> Truth
    ensures { result ≡ conjunction a b }
{
    match (a, b) {
        (Truth::False, _) | (_, Truth::False) => Truth::False,
        (Truth::True, Truth::True) => Truth::True,
        _ => Truth::Unknown,
    }
}

/// OR: True where either is, else Unknown where either is: SQL-92, 8.12.
pub fn or(a: Truth, b: Truth) -> Truth
    ensures { result ≡ disjunction a b }
{
    match (a, b) {
        (Truth::True, _) | (_, Truth::True) => Truth::True,
        (Truth::False, Truth::False) => Truth::False,
        _ => Truth::Unknown,
    }
}

/// `a IS b`, which is never Unknown: SQL-92, 8.12.
pub fn is(a: Truth, b: Truth) -> Truth
    ensures { result ≡ decided (is_truth a b) }
{
    match (a, b) {
        (Truth::True, Truth::True)
        | (Truth::False, Truth::False)
        | (Truth::Unknown, Truth::Unknown) => Truth::True,
        _ => Truth::False,
    }
}
