//! The tokens of a script.
#![tactic(auto)]

mod bytes;
mod keyword;
mod laws;
mod lex_error;
mod lexer;
mod number;
mod piece;
mod quoted;
mod sign;
mod text;
mod token;
mod word;

pub use keyword::Keyword;
pub use laws::{a_fault_is_unique, tokens_are_unique, tokens_have_no_fault};
pub use lex_error::LexError;
pub use lexer::lex;
pub use sign::Sign;
pub use token::{Lexeme, Token};
