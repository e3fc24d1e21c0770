//! The laws of least plans.

ghost use Rattle.std.specs.Prelude.{◌≡◌, ◌≤◌, ℕ};
ghost use Rattle.pdw_algebra.specs.declared.tree.Tree.{Tree as AnyTree};
ghost use Rattle.pdw_catalog.specs.Catalog.{Tables};
ghost use Rattle.pdw_groups.specs.Memo.{Contents};
ghost use Rattle.pdw_memo.specs.Memo.{IsMemo, IsPlannable};
ghost use Rattle.pdw_move.specs.Cost.{AreInRange};
ghost use Rattle.pdw_move.specs.declared.cost.Constants.{Constants as ConstantsValue};
ghost use Rattle.pdw_plan.specs.Cost.{costs_in};
ghost use Rattle.pdw_plan_exists.specs.HasLeastPlan.{HasLeastPlan, planned_by};
ghost use Rattle.pdw_planner.specs.PlanFor.{IsPlanFor};
ghost use Rattle.pdw_planner.specs.Planned.{IsPlanned, memo_within};
ghost use Rattle.pdw_stats.specs.Book.{AreInRange as HasRanges, Book};
ghost use Rattle.pdw_ways.specs.Bounds.{cost_of_plan};
ghost use Rattle.pdw_ways.specs.declared.plan.Plan.{Plan as PlanValue};

use pdw_least_exists::there_is_a_least_table;

/// Each query whose tree can be planned has a plan for it that no other such plan undercuts, with the least costs of all groups
/// and properties, by any statistics in their ranges, at 1 to 16 compute nodes, and where each constant is 1 to 1,000.
pub fn each_query_has_a_least_plan()
    ensures { (tables : Tables) (book : Book) (n budget : ℕ) (constants : ConstantsValue) (tree : AnyTree) → IsPlannable tables tree → HasRanges book → 1 ≤ n → n ≤ 16 → AreInRange constants → HasLeastPlan tables book n budget constants tree }
{
    there_is_a_least_table();
}

/// Whatever tree a memo is said to be of, its moves cost the same.
pub fn moves_cost_the_same_whatever_the_tree()
    ensures { (memo : Contents) (one other : IsMemo memo) (book : Book) (n : ℕ) (constants : ConstantsValue) → costs_in memo one book n constants ≡ costs_in memo other book n constants }
{}

/// A least plan with its bounds is one to which the query can be planned.
pub fn a_least_plan_is_planned()
    ensures { (tables : Tables) (book : Book) (n budget : ℕ) (constants : ConstantsValue) (tree : AnyTree) (least : HasLeastPlan tables book n budget constants tree) → IsPlanned tables book n budget constants tree (planned_by tables book n budget constants tree least) }
{}

/// No two plans for a query that no other undercuts differ in what they cost.
pub fn least_plans_cost_the_same()
    ensures { (tables : Tables) (book : Book) (n budget : ℕ) (constants : ConstantsValue) (tree : AnyTree) (first second : PlanValue) → IsPlanFor tables book n budget constants tree first → IsPlanFor tables book n budget constants tree second → (is : IsMemo (memo_within budget tables tree)) → cost_of_plan (memo_within budget tables tree).groups (costs_in (memo_within budget tables tree) is book n constants) first ≡ cost_of_plan (memo_within budget tables tree).groups (costs_in (memo_within budget tables tree) is book n constants) second }
{}
