//! Expressions, conditions and aggregates over numbered columns.
#![tactic(auto)]

mod agg;
mod aggregates;
mod arithmetic;
mod comparison;
mod cond;
mod evaluate;
mod laws;
mod like;
mod logic;
mod parts;
mod scalar;

pub use agg::{Agg, AggKind, JoinKind};
pub use aggregates::aggregated;
pub use arithmetic::{compute, negate};
pub use comparison::{compared_by, is_null};
pub use cond::{Cmp, Cond};
pub use evaluate::{eval_cond, eval_scalar};
pub use laws::{like_follows_its_rules, only_used_columns_count, union_keeps_both_sides};
pub use like::is_like;
pub use logic::{and, is, not, or, truth_from};
pub use parts::{each_once, is_same_row};
pub use scalar::{Arith, Scalar};
