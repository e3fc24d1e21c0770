//! Rows with their columns.

ghost use Rattle.std.specs.Prelude.{◌≡◌, IfOk};
ghost use Rattle.pdw_exec.specs.Relation as spec;

use pdw_base::{Bag, NoMemory, Row, Schema};
use std::alloc::Global;

/// A bag that is read where it stands, or that an operator made.
#[derive(Drop)]
pub enum Held<'a> {
    Lent(&'a Bag),
    Made(Bag),
}

/// Rows, and the columns of which they have values.
#[derive(Drop)]
pub struct Relation<'a> {
    pub columns: Schema,
    pub rows: Held<'a>,
}

impl<'a> Held<'a> {
    /// The bag, to be read.
    pub fn bag(&self) -> &Bag
        ensures { result.now ≡ spec.rows_in self.now }
    {
        match self {
            Held::Lent(bag) => bag,
            Held::Made(bag) => bag,
        }
    }

    /// The bag by itself. One that was made is not copied.
    pub fn into_bag(self, alloc: Global) -> Result<Bag, NoMemory>
        ensures { IfOk result (λ bag. bag ≡ spec.rows_in self.entry) }
    {
        match self {
            Held::Lent(bag) => bag.try_copy(alloc),
            Held::Made(bag) => Ok(bag),
        }
    }
}
