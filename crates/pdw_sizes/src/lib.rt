//! Sizes of groups: how many rows a group is reckoned to have, and how wide they are.
#![tactic(auto)]

mod columns;
mod divisors;
mod laws;
mod made;
mod numbers;
mod reading;
mod rows;
mod size;

pub use laws::{each_group_reads_its_meaning, reckoned_rows_are_in_range, sizes_are_in_range};
pub use size::{Size, WIDEST, size_of, the_limit_of_widths_is_this};
