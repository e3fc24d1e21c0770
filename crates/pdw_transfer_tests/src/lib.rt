//! Tests of transfers: rows, counts and numbers of events that were worked out by hand.
#![tactic(auto)]

#[cfg(test)]
mod tests;
