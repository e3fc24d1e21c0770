//! Trees of operators over whole tables.

ghost use Rattle.std.specs.Prelude.{◌≡◌};

use pdw_base::{ColId, Str};
use pdw_expr::{Agg, Cond, JoinKind, Scalar};
use sqlite_items::{Boxed, Items};

/// The greatest number of leaves of a block.
pub const MOST_LEAVES: usize = 10;

/// The limit of leaves.
pub fn the_limit_of_leaves_is_this()
    ensures { MOST_LEAVES ≡ 10 }
{}

/// A tree of operators over whole tables. It means a bag of rows, each a value for each of its columns.
#[derive(Drop)]
pub enum Tree {
    /// The rows of a table, with the columns that are used: each has its place in the table, from 0.
    Scan {
        table: Str,
        alias: Str,
        cols: Items<(ColId, u32)>,
    },
    /// The rows for which all conditions are True.
    Filter {
        conds: Items<Cond>,
        child: Boxed<Tree>,
    },
    /// For each row one row of these columns, which are passed through where there is no expression.
    Project {
        items: Items<(ColId, Option<Scalar>)>,
        child: Boxed<Tree>,
    },
    /// The rows of one row for each leaf for which all conditions are True.
    Block {
        leaves: Items<Tree>,
        conds: Items<Cond>,
    },
    /// A join of another kind than Inner.
    Join {
        kind: JoinKind,
        conds: Items<Cond>,
        left: Boxed<Tree>,
        right: Boxed<Tree>,
    },
    /// A row for each group: the keys and the aggregates.
    GroupBy {
        keys: Items<ColId>,
        aggs: Items<Agg>,
        child: Boxed<Tree>,
    },
}
