//! Trees of operators at one node.

use pdw_base::{ColId, Str};
use pdw_expr::{Agg, Cond, JoinKind, Scalar};
use sqlite_items::{Boxed, Items};

/// A tree of operators that runs at one node, over its part of the tables and over temporary tables.
#[derive(Drop)]
pub enum LocalTree {
    /// The node's rows of a table, with the columns that are used: each has its place in the table, from 0.
    Base {
        table: Str,
        cols: Items<(ColId, u32)>,
    },
    /// The node's rows of a temporary table, which are numbered from 1.
    Temp {
        id: u32,
    },
    Filter {
        conds: Items<Cond>,
        child: Boxed<LocalTree>,
    },
    Project {
        items: Items<(ColId, Option<Scalar>)>,
        child: Boxed<LocalTree>,
    },
    Join {
        kind: JoinKind,
        conds: Items<Cond>,
        left: Boxed<LocalTree>,
        right: Boxed<LocalTree>,
    },
    GroupBy {
        keys: Items<ColId>,
        aggs: Items<Agg>,
        child: Boxed<LocalTree>,
    },
    /// For each group of the node's rows what its aggregates keep of them: counts and sums as wide numbers.
    Partial {
        keys: Items<ColId>,
        aggs: Items<Agg>,
        child: Boxed<LocalTree>,
    },
    /// The aggregates of whole groups, from what they keep of the parts.
    Final {
        keys: Items<ColId>,
        aggs: Items<Agg>,
        child: Boxed<LocalTree>,
    },
}
