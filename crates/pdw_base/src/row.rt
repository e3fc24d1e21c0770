ghost use Rattle.std.specs.Prelude.{◌≡◌, IfOk};

use crate::{NoMemory, Value};
use std::alloc::Global;
use std::marker::Model;

/// A row, which contracts see as the list of its values.
#[derive(Debug, Drop)]
pub struct Row {
    cells: Vec<Value>,
}

impl Model for Row {
    ghost use Rattle.std.specs.Prelude.{List};
    ghost use Rattle.std.specs.Coded.{coded_list};
    ghost use Rattle.pdw_base.specs.declared.value.Value.{Value as SqlValue};
    ghost use Rattle.pdw_base.specs.contracts.value.Value.{the_row};

    ghost Value = { List SqlValue };

    ghost coded = { coded_list the_row.coded };

    ghost view = { λ r. r.cells.items };
}

impl Row {
    pub fn from_values(values: Vec<Value>) -> Row
        ensures { result ≡ values.items }
    {
        Row { cells: values }
    }

    pub fn values(&self) -> &[Value]
        ensures { result.now ≡ self.now }
    {
        self.cells.as_slice()
    }

    /// An equal row.
    pub fn try_copy(&self, alloc: Global) -> Result<Row, NoMemory>
        ensures { IfOk result (λ copy. copy ≡ self.now) }
    {
        let mut cells = Vec::with_capacity(alloc, self.cells.len())?;
        for cell in self.cells.iter() {
            cells.push(cell.try_copy(alloc)?)?;
        }
        Ok(Row { cells })
    }
}
