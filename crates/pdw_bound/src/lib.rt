//! The tree of a statement that is accepted can be planned.
#![tactic(auto)]

mod laws;

pub use laws::a_bound_tree_is_plannable;
