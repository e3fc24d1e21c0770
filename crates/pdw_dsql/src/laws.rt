//! The laws of steps.

ghost use Rattle.std.specs.Prelude.{◌≡◌, List, None};
ghost use Rattle.pdw_catalog.specs.Appliance.{Contents as ApplianceContents};
ghost use Rattle.pdw_catalog.specs.Catalog.{Tables};
ghost use Rattle.pdw_dsql.specs.Follows.{Follows};
ghost use Rattle.pdw_dsql.specs.Steps.{root_schema, steps_of};
ghost use Rattle.pdw_dsql.specs.Typed.{AreStored, AreWellTyped, HasTablesOf};
ghost use Rattle.pdw_groups.specs.Memo.{Contents as MemoContents};
ghost use Rattle.pdw_groups.specs.declared.group.Group.{Group as GroupIn};
ghost use Rattle.pdw_memo.specs.Memo.{IsMemo};
ghost use Rattle.pdw_ways.specs.Shape.{IsPlan, query_fault, shape_of};
ghost use Rattle.pdw_ways.specs.Ways.{Costs as CostsOf};
ghost use Rattle.pdw_ways.specs.declared.made.Made.{Made as MadeBy};
ghost use Rattle.pdw_ways.specs.declared.plan.Plan.{Plan as AnyPlan};

/// The steps of a plan, run one after the other over any tables, give the plan's rows: each step takes, at every node and as
/// lists, the rows that the plan gives the child of its move, and what is returned is what the plan returns.
pub fn steps_give_the_plans_rows()
    ensures { (groups : List GroupIn) (costs : CostsOf) (plan : AnyPlan) (made : MadeBy) → IsPlan groups costs plan made → (contents : ApplianceContents) → Follows groups contents plan (steps_of groups plan) }
{}

/// The steps of a plan for the query are well-typed over every catalogue that has the memo's tables with their columns, where
/// its columns are INT or TEXT: each tree is well-typed over the schemas of the steps before it and gives those columns that
/// its step has, and the last those of the memo's root group. A tree that reads a table of the catalogue runs at compute
/// nodes, a move finds the column whose hash it reads, and a step's site is the first compute node exactly where its move is
/// FromSingle, and the control node exactly where it is FromControl.
pub fn steps_are_well_typed()
    ensures { (memo : MemoContents) (is : IsMemo memo) (costs : CostsOf) (plan : AnyPlan) → query_fault memo.groups (shape_of memo.groups costs plan) ≡ None → (tables : Tables) → HasTablesOf is.tables tables → AreStored tables → AreWellTyped tables (steps_of memo.groups plan) (root_schema memo.groups) }
{}
