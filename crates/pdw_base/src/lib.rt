//! Values, rows and bags, and the small types that every other crate speaks of.
#![tactic(auto)]

mod bag;
mod comparison;
mod limits;
mod memory;
mod node;
mod row;
mod schema;
mod text;
mod truth;
mod value;

pub use bag::Bag;
pub use comparison::{compare, order, order_is_total};
pub use limits::{
    MOST_COLUMNS, MOST_FILE_BYTES, MOST_HASH_ROWS, MOST_ITEMS, MOST_NODES, MOST_OPEN, MOST_QUERIES,
    MOST_REFERENCES, MOST_REPLICATED_ROWS, MOST_SCRIPT_BYTES, MOST_TABLES, MOST_TEXT_BYTES,
    MOST_USED, limits_of_bytes_are_these, limits_of_statements_are_these,
    limits_of_tables_are_these,
};
pub use memory::NoMemory;
pub use node::{Node, NodeCount, node_of};
pub use row::Row;
pub use schema::{ColId, Schema, row_over_reads_back};
pub use text::Str;
pub use truth::Truth;
pub use value::{Kind, Value, ValueRef};
