//! Tables, and the appliance that keeps their rows at its nodes.
#![tactic(auto)]

mod appliance;
mod catalog;
mod node_bags;
mod table;

pub use appliance::Appliance;
pub use catalog::Catalog;
pub use pdw_base::{MOST_HASH_ROWS, MOST_REPLICATED_ROWS};
pub use table::{
    Column, MOST_COLUMNS, MOST_TABLES, MOST_TEXT_BYTES, Placing, Table, limits_of_tables_are_these,
};
