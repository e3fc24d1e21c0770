//! Plans: trees of scans, operators, moves and free changes over the groups of a memo.
#![tactic(auto)]

mod costing;
mod exprs;
mod inner;
mod joins;
mod kept;
mod laws;
mod least;
mod made;
mod offer;
mod plan;
mod reckoning;
mod way;

pub use costing::{Costing, each_move_costs_little};
pub use inner::Row;
pub use kept::{Kept, bound_by, place_of};
pub use laws::{
    tight_bounds_leave_none_cheaper, valid_bounds_are_under_every_plan, valid_costs_are_least,
};
pub use least::{inner_offer, least_offer, local_offer};
pub use made::Made;
pub use offer::Offer;
pub use plan::{Bounds, CheckFault, Plan, PlanFault};
pub use reckoning::Reckoning;
pub use way::Way;
