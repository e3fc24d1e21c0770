ghost use Rattle.std.specs.Prelude.{◌≡◌, true, IfOk, IfErr};
ghost use Rattle.std.specs.List.{prefix_len};
ghost use Rattle.pdw_lex.specs.Bytes.{begins_with, is_letter as letter, is_word_byte as word_byte};
ghost use Rattle.pdw_lex.specs.Piece.{BeginsPiece};
ghost use Rattle.pdw_lex.specs.declared.lex_error.LexError.TheVariants.{Memory};

use crate::bytes::is_word_byte;
use crate::keyword::keyword_from;
use crate::piece::Piece;
use crate::text::text_from;
use crate::{LexError, Lexeme};
use std::alloc::Global;

// The number of bytes up to the first that may not stand in a word.
fn word_length(bytes: &[u8]) -> usize
    ensures { result ≡ prefix_len word_byte bytes.now }
{
    bytes.iter().take_while(|byte| is_word_byte(**byte)).count()
}

/// The keyword or name at the front of the bytes.
pub(crate) fn word(alloc: Global, left: &[u8]) -> Result<Piece, LexError>
    requires { begins_with letter left.now ≡ true }
    ensures piece { IfOk result (λ piece. BeginsPiece left.now piece.lexeme piece.length) }
    ensures fault { IfErr result (λ e. e ≡ Memory) }
{
    let length = word_length(left);
    let folded = left[..length].to_ascii_lowercase(alloc)?;
    if let Some(keyword) = keyword_from(&folded) {
        return Ok(Piece::token(Lexeme::Key(keyword), length));
    }
    let name = text_from(alloc, &folded)?;
    Ok(Piece::token(Lexeme::Name(name), length))
}
