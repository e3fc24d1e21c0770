//! The checker of plans: whether bounds on all plans show that a plan for the query costs least.
#![tactic(auto)]

mod high;
mod laws;
mod property;
mod shape;
mod tight;
mod verdict;

pub use laws::{a_plan_has_one_verdict, a_plan_with_tight_bounds_is_accepted};
pub use verdict::check;
