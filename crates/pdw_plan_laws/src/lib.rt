//! The law that CHECK PLAN accepts what EXPLAIN JSON prints.
#![tactic(auto)]

mod laws;

pub use laws::what_is_printed_is_accepted;
