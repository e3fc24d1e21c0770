//! The statements of a script.

ghost use Rattle.std.specs.Prelude.{◌≡◌, ◌-◌, ◌≤◌, length, slice_get, IfOk, IfErr};
ghost use Rattle.pdw_reading.specs.Fault.{IsFault, begins_at};
ghost use Rattle.pdw_reading.specs.Spells.{Spells};
ghost use Rattle.pdw_reading.specs.Tokens.{lexemes};

use crate::statements::script;
use pdw_lex::Token;
use pdw_reading::{ParseError, Stop};
use pdw_syntax::Statement;
use pdw_tokens::Tokens;
use sqlite_items::Items as ListOf;
use std::alloc::Global;

// The place of the token at which so many tokens are left, or the end of the script.
fn place(tokens: &[Token], left: usize, end: u32) -> u32
    requires { left ≤ length tokens.now }
    ensures { result ≡ begins_at (slice_get tokens.now (length tokens.now - left)) end }
{
    match tokens.get(tokens.len() - left) {
        Some(token) => token.from,
        None => end,
    }
}

/// The statements that the tokens of a script spell, or the first fault; `end` is the end of the script in bytes.
pub fn parse(alloc: Global, tokens: &[Token], end: u32) -> Result<ListOf<Statement>, ParseError>
    ensures statements { IfOk result (λ statements. Spells (lexemes tokens.now) statements) }
    ensures fault { IfErr result (λ e. IsFault tokens.now end e) }
{
    let mut cursor = Tokens::new(tokens);
    match script(alloc, &mut cursor) {
        Ok(statements) => Ok(statements),
        Err(Stop::Syntax) => Err(ParseError::Syntax {
            at: place(tokens, cursor.left(), end),
        }),
        Err(Stop::TooDeep) => Err(ParseError::TooDeep {
            at: place(tokens, cursor.left(), end),
        }),
        Err(Stop::Memory) => Err(ParseError::Memory),
    }
}
