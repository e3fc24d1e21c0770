//! Numbers in strings.

ghost use Rattle.std.specs.Prelude.{◌≡◌, ◌<◌, length};
ghost use Rattle.std.specs.List.{list_all};
ghost use Rattle.pdw_planjson.specs.Numerals as spec;

use pdw_base::ColId;

fn is_digit(byte: u8) -> bool
    ensures { result ≡ spec.is_digit byte }
{
    48 <= byte && byte <= 57
}

fn all_digits(text: &[u8]) -> bool
    ensures { result ≡ list_all spec.is_digit text.now }
{
    text.iter().all(|byte| is_digit(*byte))
}

fn has_no_leading_zero(text: &[u8]) -> bool
    requires { 0 < length text.now }
    ensures { result ≡ spec.has_no_leading_zero text.now }
{
    text.len() == 1 || text[0] != 48
}

#[tactic(auto, unfolding(crate::specs::Numerals::is_numeral))]
fn is_numeral(text: &[u8]) -> bool
    ensures { result ≡ spec.is_numeral text.now }
{
    if text.is_empty() {
        return false;
    }
    text.len() <= 32 && all_digits(text) && has_no_leading_zero(text)
}

/// The number that a text of 1 to 32 digits writes, which has no leading zero but `0` itself.
pub fn number_in(text: &str) -> Option<u128>
    ensures { result ≡ spec.number_in text.now }
{
    if !is_numeral(text.as_bytes()) {
        return None;
    }
    match text.parse::<u128>() {
        Ok(number) => Some(number),
        Err(_) => None,
    }
}

/// The column that a text numbers.
pub fn column_in(text: &str) -> Option<ColId>
    ensures { result ≡ spec.column_in text.now }
{
    match number_in(text) {
        Some(number) if number <= 65535 => Some(ColId(number as u16)),
        _ => None,
    }
}
