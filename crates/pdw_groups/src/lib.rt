//! Groups of expressions that mean the same bag: what the memo of a tree is, and the groups of its blocks.
#![tactic(auto)]

mod block;
mod blocks;
mod columns;
mod group;
mod joins;
mod key;
mod laws;
mod level;
mod op;
mod set_groups;
mod sets;
mod singles;

pub use block::{BlockPart, Level};
pub use blocks::add_block;
pub use columns::{hash_in, interesting_in, is_replicated, useful_columns};
pub use group::{Expr, Group};
pub use key::{GroupId, GroupKey};
pub use laws::each_expression_stands_for_its_group;
pub use level::is_several;
pub use op::Op;
pub use set_groups::add_sets;
pub use sets::Side;
pub use singles::group_with;
