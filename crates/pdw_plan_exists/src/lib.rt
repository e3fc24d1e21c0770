//! The law that each query has a least plan: over the definitions, whatever code finds or has memory for.
#![tactic(auto)]

mod laws;

pub use laws::{
    a_least_plan_is_planned, each_query_has_a_least_plan, least_plans_cost_the_same,
    moves_cost_the_same_whatever_the_tree,
};
