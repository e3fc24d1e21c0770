//! The laws of what is reached, and of how many nodes plans have.

ghost use Rattle.std.specs.Prelude.{◌≡◌, ◌≤◌, List, Some};
ghost use Rattle.std.specs.List.{AllByRecursion, slice_get};
ghost use Rattle.pdw_groups.specs.declared.group.Group.{Group as GroupValue};
ghost use Rattle.pdw_groups.specs.declared.key.GroupId.{GroupId as Number};
ghost use Rattle.pdw_ways.specs.Bounds.{AreValid, Bound};
ghost use Rattle.pdw_ways.specs.Shape.{IsPlan};
ghost use Rattle.pdw_ways.specs.Ways.{Costs};
ghost use Rattle.pdw_ways.specs.declared.made.Made.{Made as MadeValue};
ghost use Rattle.pdw_ways.specs.declared.plan.Plan.{Plan as PlanValue};
ghost use Rattle.pdw_least.specs.Premises.{AreLight, AreOrdered};
ghost use Rattle.pdw_least.specs.Reached.{AreMade, IsReached};
ghost use Rattle.pdw_least.specs.Runs.{HasFewNodes, HasShortRuns, IsWithinFour, operators, runs_of};

/// By valid bounds the rows of each group of a memo can be brought to one node, and to each, where each group has an
/// expression with the children that its operator takes. So there is a plan for the root.
pub fn each_group_is_reached()
    ensures { (groups : List GroupValue) (costs : Costs) (bound : Bound) → AreValid groups costs bound → AreOrdered groups → AreMade groups → (number : Number) (group : GroupValue) → slice_get groups number.0 ≡ Some group → IsReached bound number }
{}

/// A run of a plan in which no property occurs twice has at most four moves and free changes. So a plan whose runs are such has
/// at most five nodes for each scan and operator.
pub fn short_runs_have_few_nodes()
    ensures steps { (groups : List GroupValue) (costs : Costs) (plan : PlanValue) (made : MadeValue) → IsPlan groups costs plan made → HasShortRuns plan → AllByRecursion IsWithinFour (runs_of plan) }
    ensures few { (groups : List GroupValue) (costs : Costs) (plan : PlanValue) (made : MadeValue) → IsPlan groups costs plan made → HasShortRuns plan → HasFewNodes groups costs plan }
{}

/// A plan for the rows of a group has at most as many scans and operators as the group weighs.
pub fn plans_have_few_operators()
    ensures { (groups : List GroupValue) (costs : Costs) (light : AreLight groups) (plan : PlanValue) (made : MadeValue) → IsPlan groups costs plan made → operators plan ≤ light.weight made.group.0 }
{}
