//! The memo of a tree: its groups of expressions by number, and its blocks.
#![tactic(auto)]

mod block;
mod building;
mod count;
mod exprs;
mod laws;
mod making;
mod memo;
mod operators;
mod partial;

pub use laws::{
    a_joins_sides_are_apart, a_memo_means_its_tree, a_memo_names_its_columns,
    a_memos_scans_are_of_its_tables, expressions_of_a_group_differ,
};
pub use making::initial;
pub use memo::Memo;
pub use pdw_groups::{BlockPart, Expr, Group, GroupId, GroupKey, Level, Op};
