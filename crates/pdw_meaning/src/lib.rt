//! What a query means, computed by a plain program: its rows over whole tables, with names looked up row by row.
#![tactic(auto)]

mod answer;
mod distinct;
mod elements;
mod items;
mod joins;
mod queries;

pub use answer::plain_answer;
pub use pdw_expr::{aggregated, each_once, is_same_row};
pub use pdw_names::names_are_numbers;
