ghost use Rattle.std.specs.Prelude.{◌≡◌, ◌≤◌, false, replicate, slice_index_or, IfOk};
ghost use Rattle.pdw_machine.specs.Flags.{grid_count, grid_place, grid_row, row_at, with_flag};

use crate::flags::{Flags, MOST_FLAGS};
use pdw_base::NoMemory;
use std::alloc::Global;
use std::marker::Model;

/// Rows of flags: one row for each source, and in it one flag for each target.
#[derive(Drop)]
pub(crate) struct Grid {
    rows: Vec<Flags>,
}

impl Model for Grid {
    ghost use Rattle.std.specs.Prelude.{◌≤◌, List, Bool, vec_len};

    ghost Value = { List (List Bool) };

    ghost view = { λ g. g.rows.items };

    ghost invariant = { λ g. vec_len g.rows ≤ 17 };
}

impl Grid {
    /// So many rows of so many flags, none of which is up.
    pub(crate) fn new(alloc: Global, len: usize) -> Result<Grid, NoMemory>
        requires { len ≤ MOST_FLAGS }
        ensures { IfOk result (λ grid. grid ≡ replicate len (replicate len false)) }
    {
        let mut rows = Vec::with_capacity(alloc, len)?;
        for _row in 0..len {
            rows.push(Flags::new(alloc, len)?)?;
        }
        Ok(Grid { rows })
    }

    /// How many flags are up.
    pub(crate) fn count(&self) -> usize
        ensures count { result ≡ grid_count self.now }
        ensures most { result ≤ 289 }
    {
        let mut count = 0;
        for row in self.rows.iter() {
            count += row.count();
        }
        count
    }

    /// The row and the place in it of the k-th flag that is up, counted from 0.
    pub(crate) fn nth(&self, k: usize) -> (usize, usize)
        ensures row { result.0 ≡ grid_row self.now k }
        ensures place { result.1 ≡ grid_place self.now k }
    {
        let mut left = k;
        for (row, flags) in self.rows.iter().enumerate() {
            let count = flags.count();
            if left < count {
                return (row, flags.nth(left));
            }
            left -= count;
        }
        (self.rows.len(), 0)
    }

    /// Whether a flag is up.
    pub(crate) fn is_up(&self, row: usize, place: usize) -> bool
        ensures { result ≡ slice_index_or (row_at row self.now) place false }
    {
        row < self.rows.len() && self.rows[row].is_up(place)
    }

    /// Sets one flag anew, if there is such a flag.
    pub(crate) fn set(&mut self, row: usize, place: usize, flag: bool)
        ensures { self.new ≡ with_flag row place flag self.old }
    {
        if row < self.rows.len() {
            self.rows[row].set(place, flag);
        }
    }
}
