//! Which plans are well-formed.

ghost use Rattle.std.specs.Prelude.{◌<◌, ◌^◌, IfOk};
ghost use Rattle.pdw_plan.specs.Answer.{IsAnswer};
ghost use Rattle.pdw_plan.specs.Count.{node_count};
ghost use Rattle.pdw_plan.specs.Law.{GivesRowsOfGroup};
ghost use Rattle.pdw_ways.specs.Ways.{Costs};

use crate::Problem;
use crate::walk::walk;
use pdw_groups::{Group, GroupId};
use pdw_move::Prop;
use pdw_ways::{Plan, PlanFault};

/// The group and the property of a plan over these groups, of which the last is the root; or the first node, children first,
/// that no way of its group allows, or the last node, where its group is not the root. It takes no memory.
pub fn well_formed_over(plan: &Plan, groups: &[Group]) -> Result<(GroupId, Prop), PlanFault>
    requires { node_count plan.now < 2 ^ 32 }
    ensures { (costs : Costs) → IsAnswer groups.now costs plan.now result }
{
    let walked = walk(plan, groups, 0)?;
    let last = walked.next - 1;
    if walked.made.group.0 as usize + 1 == groups.len() {
        return Ok((walked.made.group, walked.made.prop));
    }
    Err(PlanFault { node: last })
}

/// The group and the property of a plan for the query; or the first node, children first, that no way of its group allows, or
/// the last node, where its group is not the root. Over every appliance with the memo's tables such a plan gives the rows of
/// the query. It takes no memory.
pub fn well_formed(plan: &Plan, p: &Problem<'_>) -> Result<(GroupId, Prop), PlanFault>
    requires { node_count plan.now < 2 ^ 32 }
    ensures answer { (costs : Costs) → IsAnswer p.now.memo.now.groups costs plan.now result }
    ensures law { IfOk result (λ made. GivesRowsOfGroup p.now.memo.now plan.now (record { group = made.0; prop = made.1 })) }
{
    well_formed_over(plan, p.memo.groups())
}
