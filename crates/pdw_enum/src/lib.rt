//! The least plan of a problem: a plan for the query that costs least, with the least cost of a plan for each group of the memo
//! and each of its properties.
#![tactic(auto)]

mod flows;
mod laws;
mod least;
mod root;

pub use laws::each_group_is_made;
pub use least::plan;
