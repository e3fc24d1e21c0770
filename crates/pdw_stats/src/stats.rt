ghost use Rattle.std.specs.Prelude.{◌≡◌, IfOk};
ghost use Rattle.pdw_stats.specs.Stats.{IsInRange, usual_stats, usual_width};

use pdw_base::{Kind, NoMemory};
use pdw_catalog::Table;
use sqlite_items::Items;
use std::alloc::Global;

/// The greatest number of rows. The least is 0.
pub const MOST_ROWS: u64 = 1_000_000_000_000;

/// The least number of different values of a column.
pub const LEAST_DISTINCT: u64 = 1;

/// The greatest number of different values of a column.
pub const MOST_DISTINCT: u64 = 1_000_000_000_000;

/// The least width of a column, in bytes.
pub const LEAST_WIDTH: u32 = 1;

/// The greatest width of a column, in bytes.
pub const MOST_WIDTH: u32 = 1_000;

/// The limits of statistics.
pub fn limits_of_statistics_are_these()
    ensures rows { MOST_ROWS ≡ 1000000000000 }
    ensures least_distinct { LEAST_DISTINCT ≡ 1 }
    ensures distinct { MOST_DISTINCT ≡ 1000000000000 }
    ensures least_width { LEAST_WIDTH ≡ 1 }
    ensures width { MOST_WIDTH ≡ 1000 }
{}

/// What is known of a column.
#[derive(Clone, Copy, PartialEq, Eq)]
pub struct ColStat {
    /// How many different values it has, NULL left out.
    pub distinct: u64,
    /// The bytes of a value.
    pub width: u32,
}

/// What is known of a table.
#[derive(Drop)]
pub struct Stats {
    pub rows: u64,
    /// What is known of each column, in their order.
    pub cols: Items<ColStat>,
}

/// The width of a column of which nothing is known, in bytes.
pub(crate) fn default_width(kind: Kind) -> u32
    ensures { result ≡ usual_width kind }
{
    match kind {
        Kind::Int => 8,
        Kind::Text => 32,
        Kind::Wide => 16,
    }
}

/// The statistics of a table of which nothing is known: 1,000 rows, 100 different values in each column, and a
/// width of 8 bytes for INT and 32 for TEXT.
pub fn default_stats(alloc: Global, t: &Table) -> Result<Stats, NoMemory>
    ensures usual { IfOk result (λ stats. stats ≡ usual_stats t.now) }
    ensures range { IfOk result IsInRange }
{
    let mut cols = Items::new(alloc);
    for column in t.columns.as_slice() {
        cols.push(ColStat {
            distinct: 100,
            width: default_width(column.kind),
        })?;
    }
    Ok(Stats { rows: 1_000, cols })
}
