ghost use Rattle.std.specs.Prelude.{◌≡◌, IfOk};

use pdw_base as limits;
use pdw_base::{Kind, MOST_HASH_ROWS, MOST_REPLICATED_ROWS, NoMemory, Str};
use sqlite_items::Items;
use std::alloc::Global;

/// The greatest number of tables.
pub const MOST_TABLES: usize = limits::MOST_TABLES;

/// The greatest number of columns of a table.
pub const MOST_COLUMNS: usize = limits::MOST_COLUMNS;

/// The greatest length of a text in a table, in bytes.
pub const MOST_TEXT_BYTES: usize = limits::MOST_TEXT_BYTES;

/// The limits of tables and of the texts in them.
pub fn limits_of_tables_are_these()
    ensures tables { MOST_TABLES ≡ 64 }
    ensures columns { MOST_COLUMNS ≡ 32 }
    ensures text { MOST_TEXT_BYTES ≡ 1000 }
{}

/// A column of a table.
#[derive(Debug, Drop)]
pub struct Column {
    pub name: Str,
    pub kind: Kind,
    pub nullable: bool,
}

/// Where the rows of a table stand.
#[derive(Clone, Copy, Debug, PartialEq, Eq)]
pub enum Placing {
    /// Each row at the compute node that the hash of this column gives, counted from 0.
    Hash(u32),
    /// All rows at each compute node.
    Replicate,
}

/// A table without its rows.
#[derive(Debug, Drop)]
pub struct Table {
    pub name: Str,
    pub columns: Items<Column>,
    pub placing: Placing,
}

impl Column {
    /// An equal column.
    pub fn try_copy(&self, alloc: Global) -> Result<Column, NoMemory>
        ensures { IfOk result (λ copy. copy ≡ self.now) }
    {
        Ok(Column {
            name: self.name.try_copy(alloc)?,
            kind: self.kind,
            nullable: self.nullable,
        })
    }
}

impl Placing {
    ghost use Rattle.pdw_catalog.specs.Table.{most_rows};

    /// The most rows that a table of this placing may have.
    pub fn most_rows(self) -> usize
        ensures { result ≡ most_rows self }
    {
        match self {
            Placing::Hash(_) => MOST_HASH_ROWS,
            Placing::Replicate => MOST_REPLICATED_ROWS,
        }
    }
}

impl Table {
    /// An equal table.
    pub fn try_copy(&self, alloc: Global) -> Result<Table, NoMemory>
        ensures { IfOk result (λ copy. copy ≡ self.now) }
    {
        let mut columns = Items::new(alloc);
        for column in self.columns.as_slice() {
            columns.push(column.try_copy(alloc)?)?;
        }
        Ok(Table {
            name: self.name.try_copy(alloc)?,
            columns,
            placing: self.placing,
        })
    }
}
