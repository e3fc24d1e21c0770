ghost use Rattle.std.specs.Prelude.{◌≡◌, ◌≤◌, true, false, IfOk, IfErr, length, take, drop};
ghost use Rattle.std.specs.Str.{IsUtf8};
ghost use Rattle.pdw_lex.specs.Bytes.{begins_with, is_quote as quote};
ghost use Rattle.pdw_lex.specs.Fault.{FaultsAt};
ghost use Rattle.pdw_lex.specs.Piece.{BeginsPiece, quoted as quoted_text};

use crate::piece::Piece;
use crate::text::text_from;
use crate::{LexError, Lexeme};
use pdw_base::MOST_TEXT_BYTES;
use std::alloc::Global;

// The bytes of the text up to the quote that ends it, and the length of the text with its quotes.
fn closed_text(alloc: Global, left: &[u8], at: u32) -> Result<(Vec<u8>, usize), LexError>
    requires { begins_with quote left.now ≡ true }
    ensures text { IfOk result (λ found. (found.1 ≤ length left.now) × (take found.1 left.now ≡ quoted_text found.0.items) × (begins_with quote (drop found.1 left.now) ≡ false)) }
    ensures fault { IfErr result (λ e. FaultsAt e at left.now) }
{
    let mut text = Vec::new(alloc);
    let mut next = 1;
    while next < left.len() {
        if left[next] != b'\'' {
            text.push(left[next])?;
            next += 1;
        } else if next + 1 < left.len() && left[next + 1] == b'\'' {
            text.push(b'\'')?;
            next += 2;
        } else {
            return Ok((text, next + 1));
        }
    }
    Err(LexError::OpenText { at })
}

/// The text in quotes at the front of the bytes.
pub(crate) fn quoted(alloc: Global, left: &[u8], at: u32) -> Result<Piece, LexError>
    requires begins { begins_with quote left.now ≡ true }
    requires utf8 { IsUtf8 left.now }
    ensures piece { IfOk result (λ piece. BeginsPiece left.now piece.lexeme piece.length) }
    ensures fault { IfErr result (λ e. FaultsAt e at left.now) }
{
    let (bytes, length) = closed_text(alloc, left, at)?;
    if bytes.len() > MOST_TEXT_BYTES {
        return Err(LexError::LongText { at });
    }
    let text = text_from(alloc, &bytes)?;
    Ok(Piece::token(Lexeme::Text(text), length))
}
