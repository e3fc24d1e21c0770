ghost use Rattle.std.specs.Prelude.{◌≡◌, [], None, Some, IfSome, OnOk, OnErr};
ghost use Rattle.std.specs.Option.{option_copied};
ghost use Rattle.pdw_stats.specs.Stats.{IsInRange};
ghost use Rattle.pdw_stats.specs.Book.{AreInRange, Changes, stats_of, with_stats, without_stats};

use crate::stats::Stats;
use indexmap::IndexMap;
use pdw_base::{NoMemory, Str};
use std::alloc::Global;
use std::marker::Model;

/// The statistics of tables by their names. All its numbers are in the ranges of the limits.
#[derive(Drop)]
pub struct StatsBook {
    stats: IndexMap<Str, Stats>,
}

impl Model for StatsBook {
    ghost use Rattle.pdw_stats.specs.Book.{AreInRange, Book};

    ghost Value = { Book };

    ghost view = { λ b. b.stats.entries };

    ghost invariant = { λ b. AreInRange b.stats.entries };
}

impl StatsBook {
    /// A book without statistics.
    pub fn new(alloc: Global) -> StatsBook
        ensures { result ≡ [] }
    {
        StatsBook {
            stats: IndexMap::new(alloc),
        }
    }

    /// Puts the statistics of a table, in place of those that it had. Out of memory leaves the book as it was.
    pub fn put(&mut self, alloc: Global, table: &Str, s: Stats) -> Result<(), NoMemory>
        requires { IsInRange s }
        ensures ok { OnOk result (Changes self.old self.new table.now (Some s)) }
        ensures kept { OnOk result (self.new ≡ with_stats table.now s self.old) }
        ensures err { OnErr result (self.new ≡ self.old) }
    {
        let name = table.try_copy(alloc)?;
        self.stats.insert(name, s)?;
        Ok(())
    }

    /// The statistics of a table, or None where there are none. It takes no memory.
    pub fn get(&self, table: &Str) -> Option<&Stats>
        ensures found { option_copied result ≡ stats_of table.now self.now }
        ensures range { IfSome result (λ stats. IsInRange stats.now) }
    {
        self.stats.get(table)
    }

    /// The law of books: all their numbers are in the ranges of the limits.
    pub fn keeps_ranges(&self)
        ensures { AreInRange self.now }
    {
        let _ = &self.stats;
    }

    /// Removes the statistics of a table, if there are any. It takes no memory.
    pub fn remove(&mut self, table: &Str)
        ensures changes { Changes self.old self.new table.now None }
        ensures kept { self.new ≡ without_stats table.now self.old }
    {
        let _ = self.stats.shift_remove(table);
    }
}
