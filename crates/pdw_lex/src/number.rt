ghost use Rattle.std.specs.Prelude.{◌≡◌, ◌<◌, ◌≤◌, ◌^◌, pos, true, IfOk, IfErr, MatchOption};
ghost use Rattle.std.specs.Char.{is_ascii_digit};
ghost use Rattle.std.specs.List.{prefix_len, list_all};
ghost use Rattle.std.specs.Str.Parse.{digits_value};
ghost use Rattle.pdw_lex.specs.Bytes.{begins_with};
ghost use Rattle.pdw_lex.specs.Fault.{FaultsAt};
ghost use Rattle.pdw_lex.specs.Piece.{BeginsPiece};

use crate::piece::Piece;
use crate::{LexError, Lexeme};

// The number of bytes up to the first that is no digit.
fn digit_count(bytes: &[u8]) -> usize
    ensures { result ≡ prefix_len is_ascii_digit bytes.now }
{
    bytes
        .iter()
        .take_while(|byte| byte.is_ascii_digit())
        .count()
}

// The number that digits write, or None where it is not below 2^64.
fn wide_value(digits: &[u8]) -> Option<u64>
    requires { list_all is_ascii_digit digits.now ≡ true }
    ensures { MatchOption result (2 ^ 64 ≤ digits_value 10 digits.now) (λ value. value ≡ digits_value 10 digits.now) }
{
    let mut value: u64 = 0;
    for digit in digits {
        value = value
            .checked_mul(10)?
            .checked_add(u64::from(*digit - b'0'))?;
    }
    Some(value)
}

// The number that digits write, or None where it is not below 2^63.
fn value(digits: &[u8]) -> Option<i64>
    requires { list_all is_ascii_digit digits.now ≡ true }
    ensures { MatchOption result (2 ^ 63 ≤ digits_value 10 digits.now) (λ value. (digits_value 10 digits.now < 2 ^ 63) × (value ≡ pos (digits_value 10 digits.now))) }
{
    i64::try_from(wide_value(digits)?).ok()
}

/// The number at the front of the bytes.
pub(crate) fn number(left: &[u8], at: u32) -> Result<Piece, LexError>
    requires { begins_with is_ascii_digit left.now ≡ true }
    ensures piece { IfOk result (λ piece. BeginsPiece left.now piece.lexeme piece.length) }
    ensures fault { IfErr result (λ e. FaultsAt e at left.now) }
{
    let length = digit_count(left);
    match value(&left[..length]) {
        Some(value) => Ok(Piece::token(Lexeme::Number(value), length)),
        None => Err(LexError::BigNumber { at }),
    }
}
