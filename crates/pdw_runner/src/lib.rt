//! Plans that are executed: their steps one after the other, over the rows at the nodes of an appliance.
#![tactic(auto)]

mod made;
mod run;
mod steps;
mod temporaries;

pub use run::{Run, run_plan};
