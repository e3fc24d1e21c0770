//! The canonical spelling of statements.

mod exprs;
mod queries;
mod statements;
mod words;

pub use statements::print_statement;
