//! The law that there are least costs: over the definitions, whatever code finds or has memory for.
#![tactic(auto)]

mod laws;

pub use laws::there_is_a_least_table;
