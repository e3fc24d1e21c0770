ghost use Rattle.std.specs.Prelude.{◌≡◌, ◌≢◌, MatchOption, codes, take, false};
ghost use Rattle.pdw_lex.specs.Bytes.{begins_with};
ghost use Rattle.pdw_lex.specs.Sign.{BeginsSign, is_sign_byte};

/// A sign of the language.
#[derive(Clone, Copy, Debug, PartialEq, Eq)]
pub enum Sign {
    ParenOpen,
    ParenClose,
    Comma,
    Semicolon,
    Dot,
    Star,
    Plus,
    Minus,
    Slash,
    Percent,
    Equal,
    NotEqual,
    Less,
    LessEqual,
    Greater,
    GreaterEqual,
}

/// The longest sign that the bytes begin with and its length, or None where they begin with none.
pub(crate) fn longest_sign(left: &[u8]) -> Option<(Sign, usize)>
    requires { take 2 left.now ≢ codes "--" }
    ensures { MatchOption result (begins_with is_sign_byte left.now ≡ false) (λ found. BeginsSign left.now found.0 found.1) }
{
    let found = match left {
        [b'<', b'>', ..] => (Sign::NotEqual, 2),
        [b'<', b'=', ..] => (Sign::LessEqual, 2),
        [b'<', ..] => (Sign::Less, 1),
        [b'>', b'=', ..] => (Sign::GreaterEqual, 2),
        [b'>', ..] => (Sign::Greater, 1),
        [b'-', ..] => (Sign::Minus, 1),
        [b'(', ..] => (Sign::ParenOpen, 1),
        [b')', ..] => (Sign::ParenClose, 1),
        [b',', ..] => (Sign::Comma, 1),
        [b';', ..] => (Sign::Semicolon, 1),
        [b'.', ..] => (Sign::Dot, 1),
        [b'*', ..] => (Sign::Star, 1),
        [b'+', ..] => (Sign::Plus, 1),
        [b'/', ..] => (Sign::Slash, 1),
        [b'%', ..] => (Sign::Percent, 1),
        [b'=', ..] => (Sign::Equal, 1),
        _ => return None,
    };
    Some(found)
}
