//! Plans as lines: what each node does, in which group, how its rows stand, and what a move moves.
#![tactic(auto)]

mod lines;
mod made;
mod moved;
mod operator;
mod plan_text;

pub use plan_text::explain;
