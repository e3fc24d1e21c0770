ghost use Rattle.std.specs.Prelude.{◌≡◌, [], ◌∷◌, ◌++◌, take, vec_capacity, IfOk, OnOk, OnErr};

use crate::{NoMemory, Row};
use std::alloc::Global;
use std::marker::Model;

/// Rows, which contracts see as a list. What is claimed of a bag holds up to the order of the list.
#[derive(Debug, Drop)]
pub struct Bag {
    rows: Vec<Row>,
}

impl Model for Bag {
    ghost use Rattle.std.specs.Prelude.{List};
    ghost use Rattle.std.specs.Coded.{coded_list};
    ghost use Rattle.pdw_base.specs.declared.value.Value.{Value as SqlValue};
    ghost use Rattle.pdw_base.specs.contracts.value.Value.{the_row};

    ghost Value = { List (List SqlValue) };

    ghost coded = { coded_list (coded_list the_row.coded) };

    ghost view = { λ b. b.rows.items };
}

impl Bag {
    /// The empty bag.
    pub fn new(alloc: Global) -> Bag
        ensures { result ≡ [] }
    {
        Bag {
            rows: Vec::new(alloc),
        }
    }

    pub fn rows(&self) -> &[Row]
        ensures { result.now ≡ self.now }
    {
        self.rows.as_slice()
    }

    /// Puts the row last. Out of memory leaves the bag as it was.
    pub fn push(&mut self, row: Row) -> Result<(), NoMemory>
        ensures ok { OnOk result (self.new ≡ self.old ++ row ∷ []) }
        ensures err { OnErr result (self.new ≡ self.old) }
    {
        self.rows.push(row)?;
        Ok(())
    }

    /// Moves the rows to the end, in order, and leaves the `Vec` empty with its room.
    /// Out of memory leaves both as they were.
    pub fn append(&mut self, rows: &mut Vec<Row>) -> Result<(), NoMemory>
        ensures ok { OnOk result (self.new ≡ self.old ++ rows.old.items) }
        ensures emptied { OnOk result (rows.new.items ≡ []) }
        ensures err { OnErr result (self.new ≡ self.old) }
        ensures kept { OnErr result (rows.new.items ≡ rows.old.items) }
        ensures room { vec_capacity rows.new ≡ vec_capacity rows.old }
    {
        match self.rows.append(rows) {
            Ok(()) => Ok(()),
            Err(_) => Err(NoMemory),
        }
    }

    /// Keeps the first `len` rows, and all of them where there are fewer. It takes no memory.
    pub fn truncate(&mut self, len: usize)
        ensures { self.new ≡ take len self.old }
    {
        self.rows.truncate(len);
    }

    /// An equal bag.
    pub fn try_copy(&self, alloc: Global) -> Result<Bag, NoMemory>
        ensures { IfOk result (λ copy. copy ≡ self.now) }
    {
        let mut rows = Vec::with_capacity(alloc, self.rows.len())?;
        for row in self.rows.iter() {
            rows.push(row.try_copy(alloc)?)?;
        }
        Ok(Bag { rows })
    }
}
