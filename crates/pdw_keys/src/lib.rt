//! Rows under their keys: what joins and groups share.
#![tactic(auto)]

mod index;
mod places;
mod value;

pub use index::{RowIndex, index_rows};
pub use places::{KeyPlaces, places_read_columns, value_at};
pub use value::KeyValue;
