//! How what a group means is read from the memo.

ghost use Rattle.std.specs.Prelude.{◌≡◌, ◌<◌, length, Some};
ghost use Rattle.std.specs.List.{slice_get};
ghost use Rattle.pdw_sizes.specs.Reading as spec;
ghost use Rattle.pdw_groups.specs.Level as level;

use pdw_base::{ColId, Kind};
use pdw_groups::{BlockPart, Expr, GroupId, GroupKey};
use pdw_memo::Memo;

/// What says what a group means, whatever joins were explored.
#[derive(Clone, Copy)]
pub(crate) enum Source<'a> {
    /// Some leaves of a block, with the schema of their columns.
    Set {
        part: &'a BlockPart,
        leaves: u32,
        schema: &'a [(ColId, Kind)],
    },
    /// The first expression of an operator's group.
    First(&'a Expr),
}

/// Reads what a group means.
pub(crate) fn read(memo: &Memo, g: GroupId) -> Source<'_>
    requires { g.0 < length memo.now.groups }
    ensures { spec.IsRead memo.now g.0 result }
{
    let group = &memo.groups()[g.0 as usize];
    match group.key {
        GroupKey::Part { block, leaves } => Source::Set {
            part: &memo.blocks()[block as usize],
            leaves,
            schema: group.schema.cols(),
        },
        GroupKey::Whole(_) | GroupKey::Partial(_) => Source::First(&group.exprs.as_slice()[0]),
    }
}

/// The child at a place.
pub(crate) fn child_at(children: &[GroupId], place: usize) -> GroupId
    requires { place < length children.now }
    ensures { slice_get children.now place ≡ Some result }
{
    children[place]
}

/// Whether a leaf is in a set.
pub(crate) fn has_leaf(leaves: u32, place: usize) -> bool
    requires { place < 32 }
    ensures { result ≡ level.set_of leaves place }
{
    (leaves >> place) & 1 == 1
}
