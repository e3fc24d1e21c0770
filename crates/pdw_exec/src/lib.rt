//! Trees of operators, run at one node.
#![tactic(auto)]

mod filters;
mod groups;
mod joins;
mod laws;
mod projection;
mod relation;
mod run;
mod scans;
mod temps;

pub use laws::local_trees_see_no_order;
pub use run::run_local;
