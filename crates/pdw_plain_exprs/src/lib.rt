//! What the parts of a query without a query inside them mean over rows with names: references, expressions, conditions and groups.
#![tactic(auto)]

mod environment;
mod exprs;
mod groups;
mod scope;
mod truths;
mod values;

pub use environment::{environment_of, first_row};
pub use exprs::value_of;
pub use groups::all_groups;
pub use pdw_semantics::{Cell, Label};
pub use scope::{
    Element, Scope, beside, both_labels, copy_scope, copy_scopes, labelled_row, null_row,
};
pub use truths::{
    betweenness, comparison, existence, is_in_list, is_in_rows, likeness, nullness, tested,
};
