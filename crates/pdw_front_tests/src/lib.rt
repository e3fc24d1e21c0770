//! Tests of the front layer: scripts into tokens, tokens into statements, and statements into their spelling.
#![tactic(auto)]

#[cfg(test)]
mod dump;
#[cfg(test)]
mod faults;
#[cfg(test)]
mod levels;
#[cfg(test)]
mod spellings;
#[cfg(test)]
mod statements;
#[cfg(test)]
mod tokens;
#[cfg(test)]
mod trees;
