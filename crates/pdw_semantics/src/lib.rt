//! What a query means, as definitions: its rows over whole tables, with names looked up row by row.
#![tactic(auto)]

mod labels;

pub use labels::{Cell, Label};
