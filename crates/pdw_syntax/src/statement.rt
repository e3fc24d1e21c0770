//! Statements.

use crate::Select;
use pdw_base::Str;
use pdw_catalog::Column;
use sqlite_items::Items as ListOf;

/// A statement of a script.
#[derive(Drop)]
pub enum Statement {
    /// A table that is distributed by the hash of the named column, or replicated where none is named.
    CreateNamed {
        table: Str,
        columns: ListOf<Column>,
        hash: Option<Str>,
    },
    Drop(Str),
    Load {
        table: Str,
        file: Str,
    },
    /// Statistics are to be measured.
    Measure(Str),
    /// Statistics are handed over: the number of rows, and by column the number of distinct values and the width in bytes.
    Hand {
        table: Str,
        rows: i64,
        cols: ListOf<(Str, i64, i64)>,
    },
    Budget(i64),
    Cost {
        part: CostPart,
        amount: i64,
    },
    Select(Select),
    Explain(Select),
    ExplainJson(Select),
    Profile(Select),
    CheckPlan {
        file: Str,
        select: Select,
    },
}

/// A constant of the cost of moving rows.
#[derive(Clone, Copy, PartialEq, Eq)]
pub enum CostPart {
    Reader,
    HashReader,
    Network,
    Writer,
    Bulk,
    Control,
}
