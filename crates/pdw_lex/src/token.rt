use crate::{Keyword, Sign};
use pdw_base::Str;

/// What a token says.
#[derive(Debug, Drop)]
pub enum Lexeme {
    /// A name, in lower case.
    Name(Str),
    Key(Keyword),
    Number(i64),
    /// A text without its quotes, each doubled quote made single.
    Text(Str),
    Sign(Sign),
}

/// A token: the bytes `from` up to `to` of the script, counted from 0.
#[derive(Debug, Drop)]
pub struct Token {
    pub lexeme: Lexeme,
    pub from: u32,
    pub to: u32,
}
