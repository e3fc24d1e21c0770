//! The judgement of statements: the first fault, or the statement with numbers in place of names.
#![tactic(auto)]

mod columns;
mod create;
mod judgement;
mod order;
mod queries;
mod select;
mod settings;

pub use judgement::judge;
pub use pdw_form::{JFrom, JGroup, JItem, JSub, Judged, JudgedQuery, JudgedSelect};
pub use pdw_resolve::{is_grouped, item_name};
pub use pdw_walk::{JudgeFault, LimitName};
