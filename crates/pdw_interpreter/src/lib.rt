//! The rows of trees of operators, by nested loops over whole tables.
#![tactic(auto)]

mod cells;
mod columns;
mod filters;
mod groups;
mod interpreter;
mod joins;
mod pairs;
mod partners;
mod projection;
mod relation;
mod scans;

pub use cells::column;
pub use interpreter::rows_of;
pub use relation::Relation;
