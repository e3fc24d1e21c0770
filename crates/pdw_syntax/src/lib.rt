//! Statements as they are written, and the grammar of their texts.
#![tactic(auto)]

mod expr;
mod laws;
mod query;
mod statement;

pub use expr::{ColRef, SqlExpr};
pub use laws::what_is_written_is_complete;
pub use query::{
    Item, Items, JoinPart, JoinWord, OrderKey, OrderName, Primary, Query, Select, SqlCond, TableRef,
};
pub use statement::{CostPart, Statement};
