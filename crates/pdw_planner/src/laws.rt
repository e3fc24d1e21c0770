//! The law of what is planned.

ghost use Rattle.std.specs.Prelude.{◌≡◌, ℕ, Result, Ok};
ghost use Rattle.pdw_algebra.specs.declared.tree.Tree.{Tree as AnyTree};
ghost use Rattle.pdw_catalog.specs.Catalog.{Tables};
ghost use Rattle.pdw_cert.specs.Verdict.{IsVerdict};
ghost use Rattle.pdw_memo.specs.Memo.{IsMemo};
ghost use Rattle.pdw_move.specs.declared.cost.Constants.{Constants as ConstantsValue};
ghost use Rattle.pdw_planner.specs.PlanFor.{IsPlanFor};
ghost use Rattle.pdw_plan.specs.Cost.{costs_in};
ghost use Rattle.pdw_planner.specs.Planned.{IsPlanned, cost_in};
ghost use Rattle.pdw_planner.specs.declared.planned.Planned.{Planned as PlannedValue};
ghost use Rattle.pdw_stats.specs.Book.{Book};
ghost use Rattle.pdw_ways.specs.declared.plan.CheckFault.{CheckFault as FaultValue};

/// The plan of what is planned is one for the query, over the memo of the query's tree, that no other such plan undercuts.
pub fn no_plan_undercuts_the_planned_one()
    ensures { (tables : Tables) (book : Book) (n budget : ℕ) (constants : ConstantsValue) (tree : AnyTree) (planned : PlannedValue) → IsPlanned tables book n budget constants tree planned → IsPlanFor tables book n budget constants tree planned.plan }
{}

/// The law of what the checker says of what is planned: it accepts the plan with its cost and the least costs as bounds. So a
/// least plan shows by itself that no plan for the query costs less.
pub fn what_is_planned_is_accepted()
    ensures { (tables : Tables) (book : Book) (n budget : ℕ) (constants : ConstantsValue) (tree : AnyTree) (planned : PlannedValue) → IsPlanned tables book n budget constants tree planned → (is : IsMemo planned.memo)
        → (verdict : Result ℕ FaultValue) → IsVerdict planned.memo.groups (costs_in planned.memo is book n constants) planned.plan (cost_in planned is book n constants) planned.bounds.lists verdict → verdict ≡ Ok (cost_in planned is book n constants) }
{}
