//! The limits: how much of each thing there may be. What is over one is refused.

ghost use Rattle.std.specs.Prelude.{◌≡◌};

/// The greatest length of a script, in bytes.
pub const MOST_SCRIPT_BYTES: usize = 1_048_576;

/// The greatest length of a file that is loaded, in bytes.
pub const MOST_FILE_BYTES: usize = 67_108_864;

/// The greatest number of tables.
pub const MOST_TABLES: usize = 64;

/// The greatest number of columns of a table.
pub const MOST_COLUMNS: usize = 32;

/// The greatest number of rows of a hash-distributed table, at all compute nodes together.
pub const MOST_HASH_ROWS: usize = 1_000_000;

/// The greatest number of rows of a replicated table, at each compute node.
pub const MOST_REPLICATED_ROWS: usize = 100_000;

/// The greatest length of a text, in bytes, in a script and in a table.
pub const MOST_TEXT_BYTES: usize = 1_000;

/// The greatest number of table names in the FROM clauses of a statement.
pub const MOST_REFERENCES: usize = 10;

/// The greatest number of used columns, computed items and aggregates of a statement.
pub const MOST_USED: usize = 128;

/// The greatest number of output columns of a query.
pub const MOST_ITEMS: usize = 128;

/// The greatest number of queries of a statement.
pub const MOST_QUERIES: usize = 64;

/// The greatest number of parentheses that are open at a token.
pub const MOST_OPEN: usize = 32;

/// The greatest number of compute nodes. The least is 1.
pub const MOST_NODES: u32 = 16;

/// The limits of texts, files and scripts, in bytes.
pub fn limits_of_bytes_are_these()
    ensures script { MOST_SCRIPT_BYTES ≡ 1048576 }
    ensures file { MOST_FILE_BYTES ≡ 67108864 }
    ensures text { MOST_TEXT_BYTES ≡ 1000 }
{}

/// The limits of tables and of the nodes that hold their rows.
pub fn limits_of_tables_are_these()
    ensures tables { MOST_TABLES ≡ 64 }
    ensures columns { MOST_COLUMNS ≡ 32 }
    ensures hash_rows { MOST_HASH_ROWS ≡ 1000000 }
    ensures replicated_rows { MOST_REPLICATED_ROWS ≡ 100000 }
    ensures nodes { MOST_NODES ≡ 16 }
{}

/// The limits of a statement.
pub fn limits_of_statements_are_these()
    ensures references { MOST_REFERENCES ≡ 10 }
    ensures used { MOST_USED ≡ 128 }
    ensures items { MOST_ITEMS ≡ 128 }
    ensures queries { MOST_QUERIES ≡ 64 }
    ensures parentheses { MOST_OPEN ≡ 32 }
{}
