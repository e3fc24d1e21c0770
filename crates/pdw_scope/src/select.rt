//! A query with the order of its rows.

ghost use Rattle.pdw_walk.specs.Queries as spec;
ghost use Rattle.pdw_walk.specs.Statements.{Answers, answer_of};
ghost use Rattle.pdw_walk.specs.Walk.{Walks, beginning};

use crate::order::ordered;
use crate::queries::query;
use pdw_catalog::Catalog;
use pdw_form::JudgedSelect;
use pdw_resolve::Walk;
use pdw_syntax::Select;
use pdw_walk::{JudgeFault, Role};
use std::alloc::Global;

// A SELECT: its query, and then its order keys.
#[tactic(auto, unfolding(pdw_walk::specs::Queries::select))]
fn walk_select(
    alloc: Global,
    catalog: &Catalog,
    walk: &mut Walk,
    select: &Select,
) -> Result<JudgedSelect, JudgeFault>
    ensures { Walks (spec.select catalog.now select.now walk.old) result walk.new }
{
    let walked = query(alloc, catalog, walk, &select.query, Role::Statement, &[])?;
    ordered(alloc, walked, select.order.as_slice())
}

/// A SELECT, with numbers in place of names.
pub fn judge_select(
    alloc: Global,
    catalog: &Catalog,
    select: &Select,
) -> Result<JudgedSelect, JudgeFault>
    ensures { Answers (answer_of (spec.select catalog.now select.now beginning)) result }
{
    let mut walk = Walk::new(alloc);
    walk_select(alloc, catalog, &mut walk, select)
}
