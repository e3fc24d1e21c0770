//! Moves of rows between the nodes: which there are, where each row goes, and what a move costs.
#![tactic(auto)]

mod cost;
mod kinds;
mod placed;
mod route;

pub use cost::{
    Constants, Flow, MOST_CONSTANT, MOST_FLOW_ROWS, MOST_FLOW_WIDTH, each_move_costs_less,
    limits_of_costs_are_these, move_cost,
};
pub use kinds::{Move, Prop, Receivers};
pub use placed::Placed;
pub use route::targets;
