//! Plans over the groups of a memo: which are well-formed, what they cost, and the rows that they give.
#![tactic(auto)]

mod cost;
mod exprs;
mod laws;
mod node;
mod problem;
mod query;
mod walk;

pub use cost::cost_of;
pub use exprs::expr_over;
pub use laws::{
    operators_find_their_children, plans_for_the_query_return_its_rows,
    plans_give_rows_of_their_group,
};
pub use pdw_ways::{Bounds, CheckFault, Made, Plan, PlanFault, Way};
pub use problem::Problem;
pub use query::{well_formed, well_formed_over};
