//! The size of a memo's group.

ghost use Rattle.std.specs.Prelude.{◌≡◌, ◌<◌, length, Some};
ghost use Rattle.std.specs.List.{slice_get};
ghost use Rattle.pdw_memo.specs.Laws.{meanings_in};
ghost use Rattle.pdw_memo.specs.Memo.{IsMemo};
ghost use Rattle.pdw_sizes.specs.Numbered as numbered;
ghost use Rattle.pdw_sizes.specs.Sizes as spec;

use crate::divisors::width_at;
use crate::rows::rows_at;
use pdw_base::{ColId, Kind, NodeCount};
use pdw_groups::GroupId;
use pdw_memo::Memo;
use pdw_stats::StatsBook;

/// The greatest width of a row, in bytes. Rows of a statement are at most 128,000 bytes wide, so no statement comes near it.
pub const WIDEST: u32 = u32::MAX;

/// The limit of widths.
pub fn the_limit_of_widths_is_this()
    ensures { WIDEST ≡ 4294967295 }
{}

/// How many rows a group is reckoned to have, and the bytes of a row.
#[derive(Clone, Copy, PartialEq, Eq)]
pub struct Size {
    pub rows: u64,
    pub width: u32,
}

// The width of some columns of a group.
fn width_of(memo: &Memo, book: &StatsBook, g: GroupId, schema: &[(ColId, Kind)]) -> u32
    requires { g.0 < length memo.now.groups }
    ensures { (of : IsMemo memo.now) → result ≡ spec.width_of_schema (numbered.columns_at book.now (meanings_in memo.now of) g.0) schema.now }
{
    let mut width: u32 = 0;
    for column in schema {
        width = width.saturating_add(width_at(memo, book, g, column.0));
    }
    width.max(1)
}

/// The size of a group at n nodes: whatever joins were explored, it is that of what the group means. It takes no memory.
pub fn size_of(memo: &Memo, g: GroupId, book: &StatsBook, n: NodeCount) -> Size
    requires { g.0 < length memo.now.groups }
    ensures { (of : IsMemo memo.now) → slice_get (spec.sizes_in memo.now of book.now n) g.0 ≡ Some result }
{
    let schema = memo.groups()[g.0 as usize].schema.cols();
    Size {
        rows: rows_at(memo, book, u64::from(n.get()), g),
        width: width_of(memo, book, g, schema),
    }
}
