//! The records of a CSV file as rows of a table.
#![tactic(auto)]

mod field;
mod load_error;
mod records;

pub use load_error::LoadError;
pub use records::read_table;
