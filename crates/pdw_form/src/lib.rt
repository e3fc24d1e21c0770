//! The numbered form of statements: what the judgement makes of a statement, with numbers in place of the names of columns.
#![tactic(auto)]

mod judged;

pub use judged::{JFrom, JGroup, JItem, JSub, Judged, JudgedQuery, JudgedSelect};
