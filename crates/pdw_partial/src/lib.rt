//! Partial aggregates: what places make of their own rows, and how groups are finished from it.
#![tactic(auto)]

mod laws;

pub use laws::{
    admitted_partials_add_up, final_of_partials_is_the_groups, partial_and_final_rows_see_no_order,
    partials_of_one_bag_are_admitted,
};
