//! Tests of statistics, of sizes, and of what moves cost.
#![tactic(auto)]

#[cfg(test)]
mod costs;
#[cfg(test)]
mod sizes;
#[cfg(test)]
mod statistics;
