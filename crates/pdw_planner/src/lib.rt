//! From a judged query to its least plan.
#![tactic(auto)]

mod laws;
mod planned;
mod query;

pub use laws::{no_plan_undercuts_the_planned_one, what_is_planned_is_accepted};
pub use planned::Planned;
pub use query::{Ground, memo_of_query, plan_query};
