//! What is judged is sound, and its tree means the query.
#![tactic(auto)]

mod laws;

pub use laws::{
    a_judged_tree_has_few_nodes, a_statement_keeps_its_limits, the_tree_means_its_query,
};
