//! SELECT: its tree of operators, the rows of the tree, and their order.

ghost use Rattle.std.specs.Prelude.{◌≡◌, IfOk, map};
ghost use Rattle.pdw_base.specs.Schema.{cell};
ghost use Rattle.pdw_catalog.specs.Database.{undivided};
ghost use Rattle.pdw_engine.specs.Selected.{SelectedBy};
ghost use Rattle.pdw_interpreter.specs.Relation.{environments};
ghost use Rattle.pdw_expr.specs.Rows.{key_of};
ghost use Rattle.pdw_form.specs.Numbered.{outs_of};

use crate::order::ordered;
use pdw_answer::Table1;
use pdw_base::{NoMemory, Row, Str};
use pdw_bind::bind;
use pdw_catalog::Appliance;
use pdw_form::{JItem, JudgedSelect};
use pdw_interpreter::{Relation, column, rows_of};
use sqlite_items::Items;
use std::alloc::Global;

// The values of the output columns, in the order of the items.
fn output_row(
    alloc: Global,
    items: &[JItem],
    relation: &Relation,
    row: &Row,
) -> Result<Row, NoMemory>
    ensures { IfOk result (λ output. output ≡ key_of (outs_of items.now) (cell relation.now.columns row.now)) }
{
    let mut values = Vec::new(alloc);
    for item in items {
        values.push(column(alloc, item.out, &relation.columns, row)?)?;
    }
    Ok(Row::from_values(values))
}

fn output_rows(alloc: Global, items: &[JItem], relation: &Relation) -> Result<Vec<Row>, NoMemory>
    ensures { IfOk result (λ rows. rows.items ≡ map (key_of (outs_of items.now)) (environments relation.now)) }
{
    let mut rows = Vec::new(alloc);
    for row in relation.rows.as_slice() {
        rows.push(output_row(alloc, items, relation, row)?)?;
    }
    Ok(rows)
}

fn output_names(alloc: Global, items: &[JItem]) -> Result<Items<Str>, NoMemory>
    ensures { IfOk result (λ names. names ≡ map (λ item. item.name) items.now) }
{
    let mut names = Items::new(alloc);
    for item in items {
        names.push(item.name.try_copy(alloc)?)?;
    }
    Ok(names)
}

/// The rows of a SELECT over whole tables, in an order that its keys allow.
pub fn select(
    alloc: Global,
    appliance: &Appliance,
    select: &JudgedSelect,
) -> Result<Table1, NoMemory>
    ensures { IfOk result (SelectedBy (undivided appliance.now) select.now) }
{
    let tree = bind(alloc, &select.query)?;
    let relation = rows_of(alloc, &tree, appliance)?;
    let items = select.query.items.as_slice();
    let rows = output_rows(alloc, items, &relation)?;
    Ok(Table1 {
        names: output_names(alloc, items)?,
        rows: ordered(alloc, select.order.as_slice(), rows)?,
    })
}
