//! Statistics that are handed over.

ghost use Rattle.std.specs.Prelude.{◌≡◌, ◌≤◌, IfOk};
ghost use Rattle.pdw_engine.specs.Statistics as spec;

use pdw_base::NoMemory;
use pdw_stats::{ColStat, Stats};
use sqlite_items::Items;
use std::alloc::Global;

// The numbers of the column at a place: those that are handed over, or else those that it had.
fn handed_column(numbers: &[(u32, u64, u32)], place: usize, had: ColStat) -> ColStat
    ensures { result ≡ spec.handed_column numbers.now place had }
{
    for given in numbers {
        if given.0 as usize == place {
            return ColStat {
                distinct: given.1,
                width: given.2,
            };
        }
    }
    had
}

/// The statistics of a table for which so many rows and these numbers of columns, by their places, are handed over.
pub fn handed(
    alloc: Global,
    rows: u64,
    numbers: &[(u32, u64, u32)],
    had: &Stats,
) -> Result<Stats, NoMemory>
    ensures { IfOk result (λ stats. stats ≡ spec.handed rows numbers.now had.now) }
{
    let mut cols = Items::new(alloc);
    for (place, column) in had.cols.as_slice().iter().enumerate() {
        cols.push(handed_column(numbers, place, *column))?;
    }
    Ok(Stats { rows, cols })
}
