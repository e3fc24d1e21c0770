//! Laws of bags of rows: what operators and aggregates make of equal bags.
#![tactic(auto)]

mod laws;

pub use laws::{
    aggregates_of_equal_bags_are_equal, groups_of_equal_bags_are_one_list,
    operators_keep_bags_equal,
};
