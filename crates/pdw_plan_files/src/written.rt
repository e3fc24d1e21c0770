//! The plan file of what is planned.

ghost use Rattle.std.specs.Prelude.{◌≡◌, ◌<◌, ◌^◌, None, IfOk};
ghost use Rattle.pdw_memo.specs.Memo.{IsMemo};
ghost use Rattle.pdw_move.specs.Cost.{AreInRange};
ghost use Rattle.pdw_plan.specs.Count.{node_count};
ghost use Rattle.pdw_plan.specs.Walk.{no_costs};
ghost use Rattle.pdw_plan_files.specs.Written.{IsPlanFile, ReadsBack};
ghost use Rattle.pdw_planner.specs.Planned as planned_by;
ghost use Rattle.pdw_ways.specs.Shape.{query_fault, shape_of};

use pdw_base::NoMemory;
use pdw_plan::{Problem, cost_of};
use pdw_planjson::{PlanFile, to_text};
use pdw_planner::{Ground, Planned};
use sqlite_items::Items;
use std::alloc::Global;
use std::mem::drop;

// What the plan costs of what is planned over this ground.
fn cost_in(planned: &Planned, ground: &Ground<'_>) -> u128
    requires few { node_count planned.now.plan < 2 ^ 32 }
    requires constants { AreInRange ground.now.constants.now }
    requires query { query_fault planned.now.memo.groups (shape_of planned.now.memo.groups no_costs planned.now.plan) ≡ None }
    ensures { (is : IsMemo planned.now.memo) → result ≡ planned_by.cost_in planned.now is ground.now.book.now ground.now.n ground.now.constants.now }
{
    let problem = Problem {
        memo: &planned.memo,
        book: ground.book,
        n: ground.n,
        constants: ground.constants,
    };
    cost_of(&planned.plan, &problem)
}

/// The bytes of the plan file of what is planned: its plan, its bounds, and what the plan costs by the ground. Within the limits
/// of plan files the same file is read from them. The plan is one for the query, and the constants are in their ranges.
pub fn plan_file(
    alloc: Global,
    planned: Planned,
    ground: &Ground<'_>,
) -> Result<Items<u8>, NoMemory>
    requires few { node_count planned.plan < 2 ^ 32 }
    requires constants { AreInRange ground.now.constants.now }
    requires query { query_fault planned.memo.groups (shape_of planned.memo.groups no_costs planned.plan) ≡ None }
    ensures text { IfOk result (λ bytes. IsPlanFile planned ground.now.book.now ground.now.n ground.now.constants.now bytes) }
    ensures reads { IfOk result (λ bytes. ReadsBack planned ground.now.book.now ground.now.n ground.now.constants.now bytes) }
{
    let cost = cost_in(&planned, ground);
    let Planned { memo, plan, bounds } = planned;
    drop(memo);
    let file = PlanFile { plan, bounds, cost };
    let text = to_text(alloc, &file);
    drop(file);
    Ok(Items::from_vec(text?))
}
