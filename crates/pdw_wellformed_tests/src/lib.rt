//! Tests of which plans are well-formed.
#![tactic(auto)]

#[cfg(test)]
mod deep;
#[cfg(test)]
mod faults;
mod groups;
mod plans;
#[cfg(test)]
mod table;
