//! Least plans: for each group of a memo and each of its properties, what it costs at least to make its rows, and a plan.
#![tactic(auto)]

mod at_hand;
mod build;
mod entry;
mod laws;
mod row;
mod search;

pub use entry::Entry;
pub use laws::{each_group_is_reached, plans_have_few_operators, short_runs_have_few_nodes};
pub use search::{Search, Table};
