//! Statements as they are written, and their canonical spelling.
#![tactic(auto)]

mod print;

pub use pdw_syntax::{
    ColRef, CostPart, Item, Items, JoinPart, JoinWord, OrderKey, OrderName, Primary, Query, Select,
    SqlCond, SqlExpr, Statement, TableRef,
};
pub use print::print_statement;
