//! The laws of plans.

ghost use Rattle.std.specs.List.{AllByRecursion};
ghost use Rattle.std.specs.Prelude.{◌≡◌, None, List, true};
ghost use Rattle.pdw_algebra.specs.Meaning.{rows_of};
ghost use Rattle.pdw_base.specs.SameBag.{SameBag};
ghost use Rattle.pdw_catalog.specs.Appliance.{Contents as ApplianceContents, IsSound};
ghost use Rattle.pdw_catalog.specs.Database.{undivided};
ghost use Rattle.pdw_groups.specs.Memo.{Contents as MemoContents};
ghost use Rattle.pdw_groups.specs.declared.op.Op.{Op as AnyOp};
ghost use Rattle.pdw_memo.specs.Memo.{IsMemo};
ghost use Rattle.pdw_move.specs.declared.kinds.Prop.{Prop as Property};
ghost use Rattle.pdw_plan.specs.Covers.{Covers};
ghost use Rattle.pdw_plan.specs.Given.{returned_by};
ghost use Rattle.pdw_plan.specs.Law.{GivesRowsOfGroup};
ghost use Rattle.pdw_rules.specs.Rules.{is_free, local_rule};
ghost use Rattle.pdw_ways.specs.Shape.{IsPlan, query_fault, shape_of};
ghost use Rattle.pdw_ways.specs.Ways.{Costs as CostsOf};
ghost use Rattle.pdw_ways.specs.declared.made.Made.{Made as MadeBy};
ghost use Rattle.pdw_ways.specs.declared.plan.Plan.{Plan as AnyPlan};

/// The law of distribution properties. Over every sound appliance that has the tables of a memo, a plan of a group and a
/// property gives rows that stand under the property for a bag that the group admits, and this bag is what it returns.
pub fn plans_give_rows_of_their_group()
    ensures { (memo : MemoContents) (costs : CostsOf) (plan : AnyPlan) (made : MadeBy) → IsPlan memo.groups costs plan made → GivesRowsOfGroup memo plan made }
{}

/// A plan for the query returns the rows of the memo's tree over the undivided tables.
pub fn plans_for_the_query_return_its_rows()
    ensures { (memo : MemoContents) (is : IsMemo memo) (costs : CostsOf) (plan : AnyPlan) → query_fault memo.groups (shape_of memo.groups costs plan) ≡ None → (appliance : ApplianceContents) → IsSound appliance → is.tables ≡ appliance.tables → SameBag (returned_by memo.groups appliance plan) (rows_of (undivided appliance) is.tree) }
{}

/// Where the rows of an operator are made, all that its children give is at hand: under every local rule the nodes of the
/// result's property are among those of each child's. So it is with free changes.
pub fn operators_find_their_children()
    ensures rules { (operator : AnyOp) (props : List Property) (result : Property) → local_rule operator props result ≡ true → AllByRecursion (Covers result) props }
    ensures free { (p q : Property) → is_free p q ≡ true → Covers q p }
{}
