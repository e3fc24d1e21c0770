//! Tests of values, the outside, expressions, tables with their rows, and files of rows.
#![tactic(auto)]

#[cfg(test)]
mod base;
#[cfg(test)]
mod catalog;
#[cfg(test)]
mod expr;
#[cfg(test)]
mod load;
#[cfg(test)]
mod outside;
#[cfg(test)]
mod values;
