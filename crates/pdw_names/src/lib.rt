//! The law of names and numbers: what a SELECT means by its names is what its numbered form means.
#![tactic(auto)]

mod laws;

pub use laws::names_are_numbers;
