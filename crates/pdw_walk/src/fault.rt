//! Why a statement is refused, and the limits of statements, of settings and of statistics.

ghost use Rattle.std.specs.Prelude.{◌≡◌};

use pdw_base as limits;
use pdw_base::{NoMemory, Str};
use std::alloc::{AllocError, AllocFailed};

/// The greatest number of table names in the FROM clauses of a statement.
pub const MOST_REFERENCES: usize = limits::MOST_REFERENCES;

/// The greatest number of used columns, computed items and aggregates of a statement.
pub const MOST_USED: usize = limits::MOST_USED;

/// The greatest number of output columns of a query.
pub const MOST_ITEMS: usize = limits::MOST_ITEMS;

/// The greatest number of queries of a statement.
pub const MOST_QUERIES: usize = limits::MOST_QUERIES;

/// The greatest budget of exploration. The least is 1.
pub const MOST_BUDGET: usize = 100_000;

/// The greatest constant of the cost of moving rows. The least is 1.
pub const MOST_COST: usize = 1_000;

/// The greatest number of rows, and of distinct values, that statistics may have.
pub const MOST_STATISTIC: usize = 1_000_000_000_000;

/// The greatest width of a column in statistics, in bytes. The least is 1.
pub const MOST_WIDTH: usize = 1_000;

/// The limits of a statement.
pub fn limits_of_statements_are_these()
    ensures references { MOST_REFERENCES ≡ 10 }
    ensures used { MOST_USED ≡ 128 }
    ensures items { MOST_ITEMS ≡ 128 }
    ensures queries { MOST_QUERIES ≡ 64 }
{}

/// The limits of settings and of statistics that are handed over.
pub fn limits_of_settings_are_these()
    ensures budget { MOST_BUDGET ≡ 100000 }
    ensures cost { MOST_COST ≡ 1000 }
    ensures statistic { MOST_STATISTIC ≡ 1000000000000 }
    ensures width { MOST_WIDTH ≡ 1000 }
{}

/// Why a statement is refused by its words and the tables that there are. Names are in lower case, with their alias
/// and a dot before them where that is written.
#[derive(Debug, Drop)]
pub enum JudgeFault {
    /// CREATE of a table that is there.
    TableExists(Str),
    UnknownTable(Str),
    /// A name stands twice where it may stand once.
    DuplicateName(Str),
    UnknownColumn(Str),
    /// The name fits several columns: SQL-92, 6.4.
    Ambiguous(Str),
    TypeMismatch,
    /// A column of a grouped query that is no grouping column, outside an aggregate: SQL-92, 7.9.
    NotGrouped(Str),
    /// An aggregate where none may stand: SQL-92, 6.5.
    AggregatePlace,
    /// A subquery where none may stand.
    SubqueryPlace,
    /// A column of an enclosing query where none may stand.
    OuterReference(Str),
    /// More than a statement may have.
    Limit { which: LimitName, most: u64 },
    /// A number that a setting or a statistic can't have.
    BadSetting { name: Str, amount: i64 },
    /// There was not the memory to judge.
    Memory,
}

/// What is limited.
#[derive(Clone, Copy, Debug, PartialEq, Eq)]
pub enum LimitName {
    /// Bytes of a script.
    Script,
    /// Bytes of a file.
    File,
    Tables,
    /// Columns of a table.
    Columns,
    /// Rows of a table.
    Rows,
    /// Table names in the FROM clauses of a statement.
    References,
    /// Columns of a statement: used columns of tables, computed items and aggregates together.
    Used,
    /// Output columns of a query.
    Items,
    /// Queries of a statement, the outermost one included.
    Queries,
}

impl From<NoMemory> for JudgeFault {
    ghost use Rattle.std.specs.Prelude.{◌≡◌};
    ghost use Rattle.pdw_walk.specs.declared.fault.JudgeFault.TheVariants.{Memory};

    ghost from_gives = { λ _ e. e ≡ Memory };

    fn from(_error: NoMemory) -> JudgeFault {
        JudgeFault::Memory
    }
}

impl From<AllocError> for JudgeFault {
    ghost use Rattle.std.specs.Prelude.{◌≡◌};
    ghost use Rattle.pdw_walk.specs.declared.fault.JudgeFault.TheVariants.{Memory};

    ghost from_gives = { λ _ e. e ≡ Memory };

    fn from(_error: AllocError) -> JudgeFault {
        JudgeFault::Memory
    }
}

impl<T: Drop> From<AllocFailed<T>> for JudgeFault {
    ghost use Rattle.std.specs.Prelude.{◌≡◌};
    ghost use Rattle.pdw_walk.specs.declared.fault.JudgeFault.TheVariants.{Memory};

    ghost from_gives = { λ _ e. e ≡ Memory };

    fn from(_error: AllocFailed<T>) -> JudgeFault {
        JudgeFault::Memory
    }
}
