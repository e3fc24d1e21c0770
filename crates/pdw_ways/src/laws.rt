//! The laws of bounds, each the contract of a function.

ghost use Rattle.std.specs.Prelude.{◌≡◌, ℕ, List, Option, Some, IfSome};
ghost use Rattle.pdw_groups.specs.declared.group.Group.{Group as GroupValue};
ghost use Rattle.pdw_groups.specs.declared.key.GroupId.{GroupId as Number};
ghost use Rattle.pdw_ways.specs.Bounds.{AreLeast, AreValid, AtMost, Bound, NoneCheaper, bound_in, cost_of_plan, least_in};
ghost use Rattle.pdw_ways.specs.Shape.{HasPlan, IsPlan};
ghost use Rattle.pdw_ways.specs.Ways.{Costs};
ghost use Rattle.pdw_ways.specs.declared.made.Made.{Made as MadeValue};
ghost use Rattle.pdw_ways.specs.declared.plan.Plan.{Plan as PlanValue};
ghost use Rattle.std.specs.List.{slice_get};

/// A valid bound is at most what each plan costs that makes the same rows under the same property.
pub fn valid_bounds_are_under_every_plan()
    ensures { (groups : List GroupValue) (costs : Costs) (bound : Bound) → AreValid groups costs bound → (plan : PlanValue) (made : MadeValue) → IsPlan groups costs plan made → AtMost (bound made) (Some (cost_of_plan groups costs plan)) }
{}

/// Valid bounds of which each is the cost of a plan are the least costs, and unreachable exactly where there is no plan.
pub fn valid_costs_are_least()
    ensures { (groups : List GroupValue) (costs : Costs) (bound : Bound) → AreValid groups costs bound → ((made : MadeValue) → IfSome (bound made) (HasPlan groups costs made)) → AreLeast groups costs bound }
{}

/// Where the least of the bounds of a group is a cost, and the bounds are valid, no plan for the group costs less.
pub fn tight_bounds_leave_none_cheaper()
    ensures { (groups : List GroupValue) (costs : Costs) (lists : List (List (Option ℕ))) → AreValid groups costs (bound_in groups lists) → (group : Number) (list : List (Option ℕ)) (cost : ℕ) → slice_get lists group.0 ≡ Some list → least_in list ≡ Some cost → NoneCheaper groups costs group cost }
{}
