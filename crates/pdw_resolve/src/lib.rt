//! Names of a statement resolved to numbers: column references, expressions and search conditions.
#![tactic(auto)]

mod conds;
mod exprs;
mod lookup;
mod names;
mod place;
mod text;
mod walk;

pub use conds::{is_nested, is_same_kind, test, tested};
pub use exprs::expr;
pub use lookup::{column, own_column};
pub use names::{is_grouped, item_name};
pub use place::Place;
pub use text::text_from;
pub use walk::{Outside, Walk};
