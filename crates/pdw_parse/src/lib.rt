//! Statements of tokens.
#![tactic(auto)]

mod parentheses;
mod parser;
mod statements;

pub use parser::parse;
pub use pdw_reading::{
    MOST_OPEN, ParseError, a_fault_is_unique, statements_are_unique, statements_have_no_fault,
};
