//! Meanings respect equal bags: over equal bags of tables, trees, numbered forms and statements mean equal bags of rows.
#![tactic(auto)]

mod laws;

pub use laws::meanings_respect_equal_bags;
