//! Tests of the judgement of statements, of the trees of queries, and of the columns of trees.
#![tactic(auto)]

#[cfg(test)]
mod judgement;
#[cfg(test)]
mod numbered;
#[cfg(test)]
mod schemas;
#[cfg(test)]
mod sessions;
#[cfg(test)]
mod trees;
