ghost use Rattle.std.specs.Prelude.{◌≡◌, ◌≤◌, ◌++◌, length, IfOk, IfErr};
ghost use Rattle.std.specs.Str.{IsUtf8};
ghost use Rattle.pdw_lex.specs.Fault.{IsFault};
ghost use Rattle.pdw_lex.specs.Lexes.{Lexes, token_at};
ghost use Rattle.pdw_lex.specs.declared.lex_error.LexError.TheVariants.{Memory};

use crate::piece::first_piece;
use crate::{LexError, Lexeme, Token};
use std::alloc::Global;
use std::str;

/// The tokens of a script from left to right, or its first fault.
///
/// A script that is not UTF-8 has that fault and no other. A call fails with Memory for want of memory alone.
pub fn lex(alloc: Global, bytes: &[u8]) -> Result<Vec<Token>, LexError>
    requires { length bytes.now ≤ 1048576 }
    ensures tokens { IfOk result (λ tokens. Lexes 0 bytes.now tokens.items) }
    ensures utf8 { IfOk result (λ tokens. IsUtf8 bytes.now) }
    ensures fault { IfErr result (λ e. IsFault bytes.now e) }
{
    match str::from_utf8(bytes) {
        Ok(_) => tokens(alloc, bytes),
        Err(error) => Err(LexError::NotUtf8 {
            at: error.valid_up_to() as u32,
        }),
    }
}

// Adds the token of the lexeme, where there is one, from the place `from` up to `to`.
fn keep_token(
    tokens: &mut Vec<Token>,
    said: Option<Lexeme>,
    from: u32,
    to: u32,
) -> Result<(), LexError>
    ensures kept { IfOk result (λ done. tokens.new.items ≡ tokens.old.items ++ token_at from to said) }
    ensures fault { IfErr result (λ e. e ≡ Memory) }
{
    if let Some(lexeme) = said {
        tokens.push(Token { lexeme, from, to })?;
    }
    Ok(())
}

// The tokens of a script in UTF-8, or its first fault.
fn tokens(alloc: Global, bytes: &[u8]) -> Result<Vec<Token>, LexError>
    requires short { length bytes.now ≤ 1048576 }
    requires utf8 { IsUtf8 bytes.now }
    ensures tokens { IfOk result (λ tokens. Lexes 0 bytes.now tokens.items) }
    ensures fault { IfErr result (λ e. IsFault bytes.now e) }
{
    let mut tokens = Vec::new(alloc);
    let mut at = 0;
    while at < bytes.len() {
        let piece = first_piece(alloc, &bytes[at..], at as u32)?;
        let to = at + piece.length;
        keep_token(&mut tokens, piece.lexeme, at as u32, to as u32)?;
        at = to;
    }
    Ok(tokens)
}
