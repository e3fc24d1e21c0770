//! The rows of a SELECT.

ghost use Rattle.std.specs.Prelude.{◌≡◌, IfOk};
ghost use Rattle.pdw_catalog.specs.Database.{undivided};
ghost use Rattle.pdw_semantics.specs.Answer.{answer};

use crate::queries::answer_of;
use pdw_base::{Bag, NoMemory, Row};
use pdw_catalog::Appliance;
use pdw_syntax::Select;
use std::alloc::Global;

fn bag_of(alloc: Global, rows: &[Row]) -> Result<Bag, NoMemory>
    ensures { IfOk result (λ bag. bag ≡ rows.now) }
{
    let mut bag = Bag::new(alloc);
    for row in rows {
        bag.push(row.try_copy(alloc)?)?;
    }
    Ok(bag)
}

/// The rows of a SELECT over whole tables, row by row as they are defined, in any order: SQL-92, 7.9. It is meant for
/// comparison: joins are nested loops, names are looked up for each row, and a subquery is evaluated for each row.
#[tactic(auto, unfolding(pdw_semantics::specs::Answer::answer))]
pub fn plain_answer(alloc: Global, app: &Appliance, s: &Select) -> Result<Bag, NoMemory>
    ensures { IfOk result (λ rows. rows ≡ answer (undivided app.now) s.now) }
{
    let answer = answer_of(alloc, app, &s.query, &[])?;
    bag_of(alloc, answer.rows.as_slice())
}
