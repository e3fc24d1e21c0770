//! Names of the values in a row of FROM.

ghost use Rattle.std.specs.Prelude.{◌≡◌, IfOk};
ghost use Rattle.pdw_semantics.specs.Environment as spec;

use pdw_base::{NoMemory, Str, Value};
use std::alloc::Global;

/// A named value of a row.
#[derive(Drop)]
pub struct Cell {
    pub alias: Str,
    pub column: Str,
    pub value: Value,
}

/// The name of a column that an element of FROM gives.
#[derive(Drop)]
pub struct Label {
    pub alias: Str,
    pub column: Str,
}

impl Cell {
    /// An equal cell.
    pub fn try_copy(&self, alloc: Global) -> Result<Cell, NoMemory>
        ensures { IfOk result (λ copy. copy ≡ self.now) }
    {
        Ok(Cell {
            alias: self.alias.try_copy(alloc)?,
            column: self.column.try_copy(alloc)?,
            value: self.value.try_copy(alloc)?,
        })
    }
}

impl Label {
    /// An equal name.
    pub fn try_copy(&self, alloc: Global) -> Result<Label, NoMemory>
        ensures { IfOk result (λ copy. copy ≡ self.now) }
    {
        Ok(Label {
            alias: self.alias.try_copy(alloc)?,
            column: self.column.try_copy(alloc)?,
        })
    }

    /// The value under this name.
    pub fn with(&self, alloc: Global, value: Value) -> Result<Cell, NoMemory>
        ensures { IfOk result (λ cell. cell ≡ spec.labelled_one self.now value) }
    {
        Ok(Cell {
            alias: self.alias.try_copy(alloc)?,
            column: self.column.try_copy(alloc)?,
            value,
        })
    }
}
