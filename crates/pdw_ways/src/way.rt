use crate::Made;
use pdw_move::{Move, Prop};

/// A way to make the rows of a group under a property, from what its children make.
#[derive(Clone, Copy, PartialEq, Eq)]
pub enum Way {
    /// The group's scan, which has no child.
    Scan,
    /// An operator of the group over one child.
    One(Made),
    /// An operator of the group over two.
    Two(Made, Made),
    /// A move of the group's own rows.
    Moved(Move),
    /// A free change of the group's own rows, which stand under this property before.
    Free(Prop),
}
