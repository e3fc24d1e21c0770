//! From the numbered form of a query to its tree of operators.
#![tactic(auto)]

mod groups;
mod laws;
mod leaves;
mod query;
mod subqueries;

pub use laws::{a_tree_has_few_nodes, the_tree_means_its_form};
pub use query::bind;
