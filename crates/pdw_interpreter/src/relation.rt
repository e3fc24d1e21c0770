//! Rows with their columns.

use pdw_base::{Row, Schema};
use sqlite_items::Items;

/// Rows, and the columns of which they have values. The kinds of the columns play no part.
#[derive(Drop)]
pub struct Relation {
    pub columns: Schema,
    pub rows: Items<Row>,
}
