//! SELECT by its plan: the rows that the plan returns, read by the output columns, in the order of the keys.
#![tactic(auto)]

mod order;
mod outputs;
mod select;

pub use select::{profile_planned, select_planned};
