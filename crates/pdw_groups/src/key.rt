//! What names a group.

/// The number of a group: its place in the memo, from 0.
#[derive(Clone, Copy, Debug, PartialEq, Eq)]
pub struct GroupId(pub u32);

/// What a group stands for. Blocks and other operators of the tree are each numbered from 0, children first.
#[derive(Clone, Copy, Debug, PartialEq, Eq)]
pub enum GroupKey {
    /// Some leaves of a block, with every conjunct inside them: bit i of `leaves` stands for leaf i.
    Part { block: u32, leaves: u32 },
    /// An operator of the tree.
    Whole(u32),
    /// The partial rows of an operator, which is a GroupBy.
    Partial(u32),
}
