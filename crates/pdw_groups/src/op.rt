//! Operators, without their children.

use pdw_base::{ColId, Str};
use pdw_expr::{Agg, Cond, JoinKind, Scalar};
use sqlite_items::Items;

/// An operator of an expression, whose children are groups.
#[derive(Drop)]
pub enum Op {
    /// The rows of a table. `hash` is the used column by whose hash the rows are placed.
    Scan {
        table: Str,
        alias: Str,
        cols: Items<(ColId, u32)>,
        hash: Option<ColId>,
        replicated: bool,
    },
    Filter {
        conds: Items<Cond>,
    },
    Project {
        items: Items<(ColId, Option<Scalar>)>,
    },
    Join {
        kind: JoinKind,
        conds: Items<Cond>,
    },
    GroupBy {
        keys: Items<ColId>,
        aggs: Items<Agg>,
    },
    /// For each group of some rows what its aggregates keep of them.
    Partial {
        keys: Items<ColId>,
        aggs: Items<Agg>,
    },
    /// The aggregates of whole groups, from what they keep of the parts.
    Final {
        keys: Items<ColId>,
        aggs: Items<Agg>,
    },
}
