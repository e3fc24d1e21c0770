ghost use Rattle.std.specs.Prelude.{◌≡◌, length, ◌↔◌, [], ◌∷◌, ◌++◌, IsTrue, None, Option, OnOk, OnErr, position};
ghost use Rattle.std.specs.Map.{keys_of, remove_entry};
ghost use Rattle.std.specs.Option.{option_copied, option_map};
ghost use Rattle.std.specs.Str.{bytes_eq};
ghost use Rattle.pdw_catalog.specs.Catalog.{table_named};

use crate::table::Table;
use indexmap::IndexMap;
use pdw_base::{NoMemory, Str};
use std::alloc::Global;
use std::marker::Model;

/// The tables by name, in the order of their creation.
#[derive(Drop)]
pub struct Catalog {
    tables: IndexMap<Str, Table>,
}

impl Model for Catalog {
    ghost use Rattle.std.specs.Prelude.{ℕ, List};
    ghost use Rattle.pdw_catalog.specs.declared.table.Table.{Table as TableValue};

    ghost Value = { List (List ℕ × TableValue) };

    ghost view = { λ c. c.tables.entries };
}

impl Catalog {
    /// The table of this name, or None where there is none.
    pub fn table(&self, name: &Str) -> Option<&Table>
        ensures { option_copied result ≡ table_named name.now self.now }
    {
        self.tables.get(name)
    }

    pub fn len(&self) -> usize
        ensures { result ≡ length self.now }
    {
        self.tables.len()
    }

    pub fn is_empty(&self) -> bool
        ensures { IsTrue result ↔ (self.now ≡ []) }
    {
        self.tables.is_empty()
    }

    /// No table.
    pub(crate) fn new(alloc: Global) -> Catalog
        ensures { result ≡ [] }
    {
        Catalog {
            tables: IndexMap::new(alloc),
        }
    }

    /// The table of this name with its place in the order, or None where there is none.
    pub(crate) fn find(&self, name: &Str) -> Option<(usize, &Table)>
        ensures place { option_map (λ found. found.0) result ≡ position (bytes_eq name.now) (keys_of self.now) }
        ensures table { option_map (λ found. found.1.now) result ≡ table_named name.now self.now }
    {
        let (place, _, table) = self.tables.get_full(name)?;
        Some((place, table))
    }

    /// Puts a table of a new name last. Out of memory leaves the catalogue as it was.
    pub(crate) fn insert(&mut self, name: Str, table: Table) -> Result<(), NoMemory>
        requires { table_named name self.old ≡ None }
        ensures ok { OnOk result (self.new ≡ self.old ++ (name, table) ∷ []) }
        ensures err { OnErr result (self.new ≡ self.old) }
    {
        self.tables.insert(name, table)?;
        Ok(())
    }

    /// Removes the table of this name, and answers the place that it had.
    pub(crate) fn remove(&mut self, name: &Str) -> Option<usize>
        ensures place { result ≡ position (bytes_eq name.now) (keys_of self.old) }
        ensures rest { self.new ≡ remove_entry (bytes_eq name.now) self.old }
    {
        let (place, _, _) = self.tables.shift_remove_full(name)?;
        Some(place)
    }
}
