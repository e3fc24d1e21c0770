//! Local aggregation: groups of rows, their partial rows, and groups that are finished from partial rows.
#![tactic(auto)]

mod cells;
mod columns;
mod grouping;
mod laws;
mod running;
mod stage;

pub use grouping::{group, merge_final, partial};
pub use laws::{
    final_rows_have_the_columns_of_groups, groupings_see_no_order, made_rows_read_back,
    merged_partials_are_the_groups,
};
