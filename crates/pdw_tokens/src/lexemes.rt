//! What single lexemes mean.

ghost use Rattle.std.specs.Prelude.{◌≡◌};
ghost use Rattle.std.specs.Option.{option_copied};
ghost use Rattle.pdw_syntax.specs.Lexemes as spec;
ghost use Rattle.pdw_reading.specs.Reading.{meaning_of};

use pdw_base::{Kind, Truth};
use pdw_expr::{AggKind, Arith, Cmp};
use pdw_lex::{Keyword, Lexeme, Sign};
use pdw_syntax::{CostPart, JoinWord};

/// INT or TEXT.
pub fn kind_of(lexeme: Option<&Lexeme>) -> Option<Kind>
    ensures { result ≡ meaning_of spec.kind_of (option_copied lexeme.entry) }
{
    match lexeme {
        Some(Lexeme::Name(name)) => match name.text() {
            "int" => Some(Kind::Int),
            "text" => Some(Kind::Text),
            _ => None,
        },
        _ => None,
    }
}

/// The part of the cost that a setting names.
pub fn cost_part_of(lexeme: Option<&Lexeme>) -> Option<CostPart>
    ensures { result ≡ meaning_of spec.cost_part_of (option_copied lexeme.entry) }
{
    match lexeme {
        Some(Lexeme::Name(name)) => match name.text() {
            "reader" => Some(CostPart::Reader),
            "hashreader" => Some(CostPart::HashReader),
            "network" => Some(CostPart::Network),
            "writer" => Some(CostPart::Writer),
            "bulk" => Some(CostPart::Bulk),
            "control" => Some(CostPart::Control),
            _ => None,
        },
        _ => None,
    }
}

/// Whether ALL or DISTINCT says that equal rows are to stand once.
pub fn quantifier_of(lexeme: Option<&Lexeme>) -> Option<bool>
    ensures { result ≡ meaning_of spec.quantifier_of (option_copied lexeme.entry) }
{
    match lexeme {
        Some(Lexeme::Key(Keyword::KwAll)) => Some(false),
        Some(Lexeme::Key(Keyword::KwDistinct)) => Some(true),
        _ => None,
    }
}

/// Whether ASC or DESC says that an order is descending.
pub fn direction_of(lexeme: Option<&Lexeme>) -> Option<bool>
    ensures { result ≡ meaning_of spec.direction_of (option_copied lexeme.entry) }
{
    match lexeme {
        Some(Lexeme::Key(Keyword::KwAsc)) => Some(false),
        Some(Lexeme::Key(Keyword::KwDesc)) => Some(true),
        _ => None,
    }
}

/// LEFT, RIGHT or FULL.
pub fn outer_of(lexeme: Option<&Lexeme>) -> Option<JoinWord>
    ensures { result ≡ meaning_of spec.outer_of (option_copied lexeme.entry) }
{
    match lexeme {
        Some(Lexeme::Key(Keyword::KwLeft)) => Some(JoinWord::Left),
        Some(Lexeme::Key(Keyword::KwRight)) => Some(JoinWord::Right),
        Some(Lexeme::Key(Keyword::KwFull)) => Some(JoinWord::Full),
        _ => None,
    }
}

/// TRUE, FALSE or UNKNOWN.
pub fn truth_of(lexeme: Option<&Lexeme>) -> Option<Truth>
    ensures { result ≡ meaning_of spec.truth_of (option_copied lexeme.entry) }
{
    match lexeme {
        Some(Lexeme::Key(Keyword::KwTrue)) => Some(Truth::True),
        Some(Lexeme::Key(Keyword::KwFalse)) => Some(Truth::False),
        Some(Lexeme::Key(Keyword::KwUnknown)) => Some(Truth::Unknown),
        _ => None,
    }
}

/// A comparison operator.
pub fn comparison_of(lexeme: Option<&Lexeme>) -> Option<Cmp>
    ensures { result ≡ meaning_of spec.comparison_of (option_copied lexeme.entry) }
{
    match lexeme {
        Some(Lexeme::Sign(Sign::Equal)) => Some(Cmp::Eq),
        Some(Lexeme::Sign(Sign::NotEqual)) => Some(Cmp::Ne),
        Some(Lexeme::Sign(Sign::Less)) => Some(Cmp::Lt),
        Some(Lexeme::Sign(Sign::LessEqual)) => Some(Cmp::Le),
        Some(Lexeme::Sign(Sign::Greater)) => Some(Cmp::Gt),
        Some(Lexeme::Sign(Sign::GreaterEqual)) => Some(Cmp::Ge),
        _ => None,
    }
}

/// An operator between terms.
pub fn term_operator_of(lexeme: Option<&Lexeme>) -> Option<Arith>
    ensures { result ≡ meaning_of spec.term_operator_of (option_copied lexeme.entry) }
{
    match lexeme {
        Some(Lexeme::Sign(Sign::Plus)) => Some(Arith::Add),
        Some(Lexeme::Sign(Sign::Minus)) => Some(Arith::Sub),
        _ => None,
    }
}

/// An operator between factors.
pub fn factor_operator_of(lexeme: Option<&Lexeme>) -> Option<Arith>
    ensures { result ≡ meaning_of spec.factor_operator_of (option_copied lexeme.entry) }
{
    match lexeme {
        Some(Lexeme::Sign(Sign::Star)) => Some(Arith::Mul),
        Some(Lexeme::Sign(Sign::Slash)) => Some(Arith::Div),
        Some(Lexeme::Sign(Sign::Percent)) => Some(Arith::Rem),
        _ => None,
    }
}

/// Whether a sign before a value is a minus.
pub fn minus_of(lexeme: Option<&Lexeme>) -> Option<bool>
    ensures { result ≡ meaning_of spec.minus_of (option_copied lexeme.entry) }
{
    match lexeme {
        Some(Lexeme::Sign(Sign::Plus)) => Some(false),
        Some(Lexeme::Sign(Sign::Minus)) => Some(true),
        _ => None,
    }
}

/// COUNT, SUM, MIN or MAX.
pub fn aggregate_of(lexeme: Option<&Lexeme>) -> Option<AggKind>
    ensures { result ≡ meaning_of spec.aggregate_of (option_copied lexeme.entry) }
{
    match lexeme {
        Some(Lexeme::Key(Keyword::KwCount)) => Some(AggKind::Count),
        Some(Lexeme::Key(Keyword::KwSum)) => Some(AggKind::Sum),
        Some(Lexeme::Key(Keyword::KwMin)) => Some(AggKind::Min),
        Some(Lexeme::Key(Keyword::KwMax)) => Some(AggKind::Max),
        _ => None,
    }
}
