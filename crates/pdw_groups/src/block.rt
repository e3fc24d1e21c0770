//! Blocks, and how far their joins are explored.

use crate::GroupId;
use pdw_expr::Cond;
use sqlite_items::Items;

/// Which joins of a block's parts the memo has.
#[derive(Clone, Copy, Debug, PartialEq, Eq)]
pub enum Level {
    /// Every ordered pair of disjoint parts that are not empty.
    Full,
    /// Those pairs in which a part has one leaf.
    Linear,
    /// The joins from left to right, as the leaves are written.
    Written,
}

/// A block: the groups of its leaves, its conjuncts in the order of the statement, and its level.
#[derive(Drop)]
pub struct BlockPart {
    pub leaves: Items<GroupId>,
    pub conds: Items<Cond>,
    pub level: Level,
}
