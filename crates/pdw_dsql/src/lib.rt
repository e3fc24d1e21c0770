//! Plans cut into steps: local trees that run at the nodes, and the moves between them.
#![tactic(auto)]

mod cutting;
mod laws;
mod steps;
mod trees;

pub use cutting::cut;
pub use laws::{steps_are_well_typed, steps_give_the_plans_rows};
pub use steps::{Site, Step, Steps};
