//! Rows for which conditions are True.

ghost use Rattle.std.specs.Prelude.{◌≡◌, IfOk};
ghost use Rattle.std.specs.List.{filter};
ghost use Rattle.pdw_base.specs.Schema.{cell};
ghost use Rattle.pdw_interpreter.specs.Relation as spec;
ghost use Rattle.pdw_expr.specs.Cond.{all_true};
ghost use Rattle.pdw_expr.specs.Rows as operators;

use crate::relation::Relation;
use pdw_base::{NoMemory, Row, Schema, Truth};
use pdw_expr::{Cond, and, eval_cond};
use sqlite_items::Items;
use std::alloc::Global;

// AND of all conditions.
fn truth_of_all(conds: &[Cond], columns: &Schema, row: &Row) -> Truth
    ensures { result ≡ all_true conds.now (cell columns.now row.now) }
{
    let mut truth = Truth::True;
    for cond in conds {
        truth = and(truth, eval_cond(cond, columns, row));
    }
    truth
}

/// Whether all conditions are True.
pub fn meets(conds: &[Cond], columns: &Schema, row: &Row) -> bool
    ensures { result ≡ spec.meets_over columns.now conds.now row.now }
{
    truth_of_all(conds, columns, row) == Truth::True
}

// The rows for which all conditions are True.
fn kept(
    alloc: Global,
    conds: &[Cond],
    columns: &Schema,
    rows: &[Row],
) -> Result<Items<Row>, NoMemory>
    ensures { IfOk result (λ kept. kept ≡ filter (spec.meets_over columns.now conds.now) rows.now) }
{
    let mut kept = Items::new(alloc);
    for row in rows {
        if meets(conds, columns, row) {
            kept.push(row.try_copy(alloc)?)?;
        }
    }
    Ok(kept)
}

/// The relation without the rows for which a condition is False or Unknown.
pub fn filtered(alloc: Global, conds: &[Cond], all: Relation) -> Result<Relation, NoMemory>
    ensures { IfOk result (λ found. spec.environments found ≡ operators.filtered conds.now (spec.environments all)) }
{
    let Relation { columns, rows } = all;
    let rows = kept(alloc, conds, &columns, rows.as_slice())?;
    Ok(Relation { columns, rows })
}
