//! FROM, queries and SELECT of tokens.
#![tactic(auto)]

mod queries;
mod rules;
mod tables;

pub use rules::Queries;
