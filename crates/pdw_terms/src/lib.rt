//! Value expressions and conditions of tokens.
#![tactic(auto)]

mod conds;
mod exprs;
mod grammar;

pub use grammar::Grammar;
