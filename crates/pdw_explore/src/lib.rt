//! Exploration: the memo of a tree in which the joins of each block go as far as a budget allows.
#![tactic(auto)]

mod blocks;
mod grown;
mod laws;
mod leaves;
mod levels;
mod memo;
mod numbers;
mod turned;

pub use laws::a_block_has_the_joins_of_its_level;
pub use memo::explore;
