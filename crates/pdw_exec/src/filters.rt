//! Rows that meet conditions.

ghost use Rattle.std.specs.Prelude.{◌≡◌, IfOk};
ghost use Rattle.std.specs.List.{filter};
ghost use Rattle.pdw_base.specs.Schema.{cell};
ghost use Rattle.pdw_exec.specs.Relation.{Fits, Gives, environments, meets_over};
ghost use Rattle.pdw_expr.specs.Cond.{all_true};
ghost use Rattle.pdw_expr.specs.Rows as operators;

use crate::relation::{Held, Relation};
use pdw_base::{Bag, NoMemory, Row, Schema, Truth};
use pdw_expr::{Cond, and, eval_cond};
use std::alloc::Global;

// AND of all conditions.
fn truth_of_all(conds: &[Cond], columns: &Schema, row: &Row) -> Truth
    ensures { result ≡ all_true conds.now (cell columns.now row.now) }
{
    let mut truth = Truth::True;
    for cond in conds {
        truth = and(truth, eval_cond(cond, columns, row));
    }
    truth
}

/// Whether all conditions are True of a row.
pub fn meets(conds: &[Cond], columns: &Schema, row: &Row) -> bool
    ensures { result ≡ meets_over columns.now conds.now row.now }
{
    truth_of_all(conds, columns, row) == Truth::True
}

// The rows of which all conditions are True.
fn kept(alloc: Global, conds: &[Cond], columns: &Schema, rows: &[Row]) -> Result<Bag, NoMemory>
    ensures { IfOk result (λ kept. kept ≡ filter (meets_over columns.now conds.now) rows.now) }
{
    let mut kept = Bag::new(alloc);
    for row in rows {
        if meets(conds, columns, row) {
            kept.push(row.try_copy(alloc)?)?;
        }
    }
    Ok(kept)
}

/// The rows of which all conditions are True.
pub fn filtered<'a>(
    alloc: Global,
    conds: &[Cond],
    child: Relation<'a>,
) -> Result<Relation<'a>, NoMemory>
    ensures { IfOk result (Gives child.entry.columns (operators.filtered conds.now (environments child.entry)) (Fits child.entry)) }
{
    let Relation { columns, rows } = child;
    let bag = kept(alloc, conds, &columns, rows.bag().rows())?;
    Ok(Relation {
        columns,
        rows: Held::Made(bag),
    })
}
