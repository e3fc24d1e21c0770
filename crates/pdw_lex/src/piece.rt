ghost use Rattle.std.specs.Prelude.{◌≡◌, ◌≢◌, ◌<◌, ◌++◌, take, codes, Some, None, length, false, IfOk, IfErr, MatchOption};
ghost use Rattle.std.specs.List.{prefix_len};
ghost use Rattle.std.specs.Str.{IsUtf8};
ghost use Rattle.pdw_lex.specs.Bytes.{begins_with, is_in_line as line_byte};
ghost use Rattle.pdw_lex.specs.Fault.{FaultsAt};
ghost use Rattle.pdw_lex.specs.Piece.{BeginsPiece};
ghost use Rattle.pdw_lex.specs.Sign.{is_sign_byte};

use crate::bytes::{is_in_line, is_letter, is_separator};
use crate::number::number;
use crate::quoted::quoted;
use crate::sign::longest_sign;
use crate::word::word;
use crate::{LexError, Lexeme};
use std::alloc::Global;

/// A piece of a script: a token, or, without lexeme, what separates tokens. The length is in bytes.
#[derive(Drop)]
pub(crate) struct Piece {
    pub(crate) lexeme: Option<Lexeme>,
    pub(crate) length: usize,
}

impl Piece {
    pub(crate) fn token(lexeme: Lexeme, length: usize) -> Piece
        ensures lexeme { result.lexeme ≡ Some lexeme }
        ensures length { result.length ≡ length }
    {
        Piece {
            lexeme: Some(lexeme),
            length,
        }
    }

    fn blank(length: usize) -> Piece
        ensures lexeme { result.lexeme ≡ None }
        ensures length { result.length ≡ length }
    {
        Piece {
            lexeme: None,
            length,
        }
    }
}

// The length of the line that the bytes begin with, without its line feed.
fn line_length(bytes: &[u8]) -> usize
    ensures { result ≡ prefix_len line_byte bytes.now }
{
    bytes.iter().take_while(|byte| is_in_line(**byte)).count()
}

// What follows two `-` at the front of the bytes.
fn after_dashes(left: &[u8]) -> Option<&[u8]>
    ensures { MatchOption result (take 2 left.now ≢ codes "--") (λ line. left.now ≡ codes "--" ++ line.now) }
{
    match left {
        [b'-', b'-', line @ ..] => Some(line),
        _ => None,
    }
}

// The comment or sign that the bytes begin with, or None where they begin with neither.
fn comment_or_sign(left: &[u8]) -> Option<Piece>
    ensures { MatchOption result (begins_with is_sign_byte left.now ≡ false) (λ piece. BeginsPiece left.now piece.lexeme piece.length) }
{
    if let Some(line) = after_dashes(left) {
        return Some(Piece::blank(2 + line_length(line)));
    }
    let (sign, length) = longest_sign(left)?;
    Some(Piece::token(Lexeme::Sign(sign), length))
}

/// The piece at the front of what is left of a script from the byte `at` on.
pub(crate) fn first_piece(alloc: Global, left: &[u8], at: u32) -> Result<Piece, LexError>
    requires some { 0 < length left.now }
    requires utf8 { IsUtf8 left.now }
    ensures piece { IfOk result (λ piece. BeginsPiece left.now piece.lexeme piece.length) }
    ensures fault { IfErr result (λ e. FaultsAt e at left.now) }
{
    let first = left[0];
    if is_separator(first) {
        return Ok(Piece::blank(1));
    }
    if is_letter(first) {
        return word(alloc, left);
    }
    if first.is_ascii_digit() {
        return number(left, at);
    }
    if first == b'\'' {
        return quoted(alloc, left, at);
    }
    comment_or_sign(left).ok_or(LexError::BadChar { at })
}
