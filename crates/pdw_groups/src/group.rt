//! Groups and their expressions.

use crate::{GroupId, GroupKey, Op};
use pdw_base::{ColId, Schema};
use sqlite_items::Items;

/// An operator over groups.
#[derive(Drop)]
pub struct Expr {
    pub op: Op,
    pub children: Items<GroupId>,
}

/// Expressions that mean the same bag. By the interesting columns its rows may be placed over the nodes.
#[derive(Drop)]
pub struct Group {
    pub key: GroupKey,
    pub schema: Schema,
    pub interesting: Items<ColId>,
    pub exprs: Items<Expr>,
}
