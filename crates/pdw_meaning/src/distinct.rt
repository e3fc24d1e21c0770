//! DISTINCT: SQL-92, 7.9.

ghost use Rattle.std.specs.Prelude.{◌≡◌, IfOk};
ghost use Rattle.pdw_expr.specs.Predicates as predicates;

use pdw_base::{NoMemory, Row};
use pdw_expr::each_once;
use sqlite_items::Items as ListOf;
use std::alloc::Global;

/// Each row once where that is asked, and else all of them.
pub fn distinct_if(
    alloc: Global,
    distinct: bool,
    rows: ListOf<Row>,
) -> Result<ListOf<Row>, NoMemory>
    ensures { IfOk result (λ kept. kept ≡ predicates.distinct_if distinct rows) }
{
    if distinct {
        each_once(alloc, rows.as_slice())
    } else {
        Ok(rows)
    }
}
