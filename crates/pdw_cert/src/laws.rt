//! The laws of verdicts, each the contract of a function.

ghost use Rattle.std.specs.Prelude.{◌≡◌, ℕ, List, Option, Result, Ok};
ghost use Rattle.pdw_cert.specs.Verdict.{IsAccepted, IsVerdict};
ghost use Rattle.pdw_groups.specs.declared.group.Group.{Group as GroupValue};
ghost use Rattle.pdw_ways.specs.Ways.{Costs};
ghost use Rattle.pdw_ways.specs.declared.plan.CheckFault.{CheckFault as FaultValue};
ghost use Rattle.pdw_ways.specs.declared.plan.Plan.{Plan as PlanValue};

/// A plan for the query with its cost, and with bounds that have the shape of the groups, are valid and are tight for this
/// cost, is accepted.
pub fn a_plan_with_tight_bounds_is_accepted()
    ensures { (groups : List GroupValue) (costs : Costs) (plan : PlanValue) (written : ℕ) (lists : List (List (Option ℕ))) (cost : ℕ) → IsAccepted groups costs plan written lists cost → (verdict : Result ℕ FaultValue) → IsVerdict groups costs plan written lists verdict → verdict ≡ Ok cost }
{}

/// There is one verdict on a plan with a written cost and bounds: it is accepted, or has one first fault with its numbers.
pub fn a_plan_has_one_verdict()
    ensures { (groups : List GroupValue) (costs : Costs) (plan : PlanValue) (written : ℕ) (lists : List (List (Option ℕ))) (first second : Result ℕ FaultValue) → IsVerdict groups costs plan written lists first → IsVerdict groups costs plan written lists second → first ≡ second }
{}
