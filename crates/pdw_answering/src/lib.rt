//! Answers from what is planned, over the state that a session keeps: EXPLAIN, EXPLAIN JSON and CHECK PLAN.
#![tactic(auto)]

mod checked;
mod explained;
mod printed;

pub use checked::check_query;
pub use explained::explain_planned;
pub use printed::print_planned;
