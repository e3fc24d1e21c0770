//! A plan for the query as lines.

ghost use Rattle.std.specs.Prelude.{◌≡◌, ◌<◌, ◌^◌, None, IfOk};
ghost use Rattle.pdw_explain.specs.Lines.{explained};
ghost use Rattle.pdw_memo.specs.Memo.{IsMemo};
ghost use Rattle.pdw_move.specs.Cost.{AreInRange};
ghost use Rattle.pdw_plan.specs.Count.{node_count};
ghost use Rattle.pdw_plan.specs.Walk.{no_costs};
ghost use Rattle.pdw_ways.specs.Shape.{query_fault, shape_of};

use crate::lines::push_plan;
use pdw_answer::PlanText;
use pdw_base::NoMemory;
use pdw_plan::{Plan, Problem, cost_of};
use sqlite_items::Items;
use std::alloc::Global;

/// What a plan for the query costs, and a line for each of its nodes, before those of its children. The constants are in their
/// ranges.
pub fn explain(alloc: Global, plan: &Plan, p: &Problem<'_>) -> Result<PlanText, NoMemory>
    requires few { node_count plan.now < 2 ^ 32 }
    requires constants { AreInRange p.now.constants.now }
    requires well_formed { query_fault p.now.memo.now.groups (shape_of p.now.memo.now.groups no_costs plan.now) ≡ None }
    ensures { IfOk result (λ text. (is : IsMemo p.now.memo.now) → text ≡ explained p.now.memo.now is p.now.book.now p.now.n p.now.constants.now plan.now) }
{
    let cost = cost_of(plan, p);
    let mut lines = Vec::new(alloc);
    push_plan(alloc, plan, p, 0, &mut lines)?;
    Ok(PlanText {
        cost,
        lines: Items::from_vec(lines),
    })
}
