ghost use Rattle.std.specs.Prelude.{◌≡◌, ℕ, List, IfOk, SomeIff, IsSome, IsNone, get_or, length, Some};
ghost use Rattle.pdw_base.specs.declared.schema.ColId.{ColId as Column};
ghost use Rattle.pdw_base.specs.declared.value.Value.{Value as SqlValue};
ghost use Rattle.pdw_base.specs.declared.value.Value.TheVariants as sql;
ghost use Rattle.pdw_base.specs.Schema.{Columns, Env, FitsColumns, IsAscending, cell, place_of, row_over};

use crate::{Kind, NoMemory};
use std::alloc::Global;
use std::marker::Model;

/// The number of a column within one statement.
#[derive(Clone, Copy, Debug, PartialEq, Eq, PartialOrd, Ord, Hash)]
pub struct ColId(pub u16);

/// Columns with their kinds, in strictly rising order of their numbers.
#[derive(Debug, Drop)]
pub struct Schema {
    columns: Vec<(ColId, Kind)>,
}

impl Model for Schema {
    ghost use Rattle.std.specs.Prelude.{List};
    ghost use Rattle.pdw_base.specs.declared.schema.ColId.{ColId as Column};
    ghost use Rattle.pdw_base.specs.declared.value.Kind.{Kind as ColumnKind};
    ghost use Rattle.pdw_base.specs.Schema.{IsAscending as Ascending};

    ghost Value = { List (Column × ColumnKind) };

    ghost view = { λ s. s.columns.items };

    ghost invariant = { λ s. Ascending s.columns.items };
}

impl Schema {
    /// The schema of these columns, or None where their numbers do not rise strictly.
    pub fn new(cols: Vec<(ColId, Kind)>) -> Option<Schema>
        ensures { SomeIff result (IsAscending cols.items) cols.items }
    {
        for at in 1..cols.len() {
            if cols[at - 1].0.0 >= cols[at].0.0 {
                return None;
            }
        }
        Some(Schema { columns: cols })
    }

    /// Where the column stands, or None where it is absent.
    pub fn place(&self, c: ColId) -> Option<usize>
        ensures { result ≡ place_of c self.now }
    {
        self.columns.iter().position(|column| column.0.0 == c.0)
    }

    pub fn cols(&self) -> &[(ColId, Kind)]
        ensures columns { result.now ≡ self.now }
        ensures ascending { IsAscending self.now }
    {
        self.columns.as_slice()
    }

    /// An equal schema.
    pub fn try_copy(&self, alloc: Global) -> Result<Schema, NoMemory>
        ensures { IfOk result (λ copy. copy ≡ self.now) }
    {
        Ok(Schema {
            columns: Vec::from_slice(alloc, self.columns.as_slice())?,
        })
    }
}

/// The law of positional rows: a row stands for an environment, and the two give each other back.
pub fn row_over_reads_back()
    ensures length { (columns : Columns) (env : Env) → length (row_over columns env) ≡ length columns }
    ensures present { (columns : Columns) (env : Env) (c : Column) → IsSome (place_of c columns) → cell columns (row_over columns env) c ≡ env c }
    ensures absent { (columns : Columns) (row : List SqlValue) (c : Column) → IsNone (place_of c columns) → cell columns row c ≡ sql.Null }
    ensures place { (columns : Columns) (row : List SqlValue) (c : Column) (i : ℕ) → place_of c columns ≡ Some i → cell columns row c ≡ get_or row i sql.Null }
    ensures back { (columns : Columns) (row : List SqlValue) → IsAscending columns → FitsColumns columns row → row_over columns (cell columns row) ≡ row }
{}
