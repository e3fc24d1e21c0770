//! Tests of local trees, by rows that were worked out by hand.
#![tactic(auto)]

#[cfg(test)]
mod joins;
#[cfg(test)]
mod operators;
#[cfg(test)]
mod support;
