//! The verdict on a plan with its cost and bounds.

ghost use Rattle.std.specs.Prelude.{◌≡◌, ◌<◌, ◌^◌, ℕ, List, Option, length, IfOk, MatchOption};
ghost use Rattle.pdw_cert.specs.Shape.{AreSmallNumbers, root_of};
ghost use Rattle.pdw_cert.specs.Verdict.{IsBounded, IsFault, IsPriced, IsShaped, IsVerdict};
ghost use Rattle.pdw_memo.specs.Memo.{IsMemo};
ghost use Rattle.pdw_move.specs.Cost.{AreInRange};
ghost use Rattle.pdw_plan.specs.Cost.{costs_in};
ghost use Rattle.pdw_plan.specs.Count.{node_count};
ghost use Rattle.pdw_ways.specs.Bounds.{NoneCheaper};
ghost use Rattle.pdw_ways.specs.Ways.{Costs};
ghost use Rattle.pdw_ways.specs.declared.plan.Plan.{Plan as PlanValue};

use crate::high::first_too_high;
use crate::shape::first_misshapen;
use crate::tight::{is_cost, least_of_root};
use pdw_groups::Group;
use pdw_plan::{Bounds, CheckFault, Plan, Problem, cost_of, well_formed};
use pdw_ways::Kept;
use sqlite_items::Items;

// Why a plan is none for the query, or does not cost what is written.
fn plan_fault(p: &Problem<'_>, plan: &Plan, written: u128) -> Option<CheckFault>
    requires few { node_count plan.now < 2 ^ 32 }
    requires constants { AreInRange p.now.constants.now }
    ensures { (is : IsMemo p.now.memo.now) (lists : List (List (Option ℕ))) → MatchOption result (IsPriced p.now.memo.now.groups (costs_in p.now.memo.now is p.now.book.now p.now.n p.now.constants.now) plan.now written lists) (IsFault p.now.memo.now.groups (costs_in p.now.memo.now is p.now.book.now p.now.n p.now.constants.now) plan.now written lists) }
{
    match well_formed(plan, p) {
        Err(fault) => Some(CheckFault::PlanShape { node: fault.node }),
        Ok(_) => {
            let computed = cost_of(plan, p);
            if computed == written {
                None
            } else {
                Some(CheckFault::WrongCost { written, computed })
            }
        }
    }
}

// Why bounds do not have the shape of the groups.
fn shape_fault(groups: &[Group], lists: &[Items<Option<u128>>]) -> Option<CheckFault>
    requires few { length groups.now < 2 ^ 32 }
    ensures { (costs : Costs) (plan : PlanValue) (written : ℕ) → IsPriced groups.now costs plan written lists.now → MatchOption result (IsShaped groups.now costs plan written lists.now) (IsFault groups.now costs plan written lists.now) }
{
    match first_misshapen(groups, lists) {
        Some(group) => Some(CheckFault::BoundShape { group }),
        None => None,
    }
}

// Why bounds of this shape are not valid.
fn bound_fault(p: &Problem<'_>, lists: &[Items<Option<u128>>]) -> Option<CheckFault>
    requires constants { AreInRange p.now.constants.now }
    requires small { AreSmallNumbers lists.now }
    ensures { (is : IsMemo p.now.memo.now) (plan : PlanValue) (written : ℕ) → IsShaped p.now.memo.now.groups (costs_in p.now.memo.now is p.now.book.now p.now.n p.now.constants.now) plan written lists.now → MatchOption result (IsBounded p.now.memo.now.groups (costs_in p.now.memo.now is p.now.book.now p.now.n p.now.constants.now) plan written lists.now) (IsFault p.now.memo.now.groups (costs_in p.now.memo.now is p.now.book.now p.now.n p.now.constants.now) plan written lists.now) }
{
    let kept = Kept {
        groups: p.memo.groups(),
        lists,
    };
    match first_too_high(p, &kept) {
        Some(high) => Some(CheckFault::BoundTooHigh {
            group: high.made.group.0,
            prop: high.made.prop,
            bound: high.bound,
            limit: high.limit,
        }),
        None => None,
    }
}

/// What a plan costs, where it is a plan for the query, costs what is written, and the bounds show that no plan for the query
/// costs less: there is one for each property of each group, each is at most what they allow to each of its ways, and the
/// least of the root's is the cost. Otherwise the first fault, in the order of the faults. Each bound is below 2^126, as each
/// number of 32 digits is. It takes no memory, and trusts nothing of who made the plan and the bounds.
pub fn check(
    p: &Problem<'_>,
    plan: &Plan,
    written: u128,
    bounds: &Bounds,
) -> Result<u128, CheckFault>
    requires few { node_count plan.now < 2 ^ 32 }
    requires constants { AreInRange p.now.constants.now }
    requires small { AreSmallNumbers bounds.now.lists }
    ensures verdict { (is : IsMemo p.now.memo.now) → IsVerdict p.now.memo.now.groups (costs_in p.now.memo.now is p.now.book.now p.now.n p.now.constants.now) plan.now written bounds.now.lists result }
    ensures law { (is : IsMemo p.now.memo.now) → IfOk result (NoneCheaper p.now.memo.now.groups (costs_in p.now.memo.now is p.now.book.now p.now.n p.now.constants.now) (root_of p.now.memo.now.groups)) }
{
    if let Some(fault) = plan_fault(p, plan, written) {
        return Err(fault);
    }
    let groups = p.memo.groups();
    let lists = bounds.lists.as_slice();
    if let Some(fault) = shape_fault(groups, lists) {
        return Err(fault);
    }
    if let Some(fault) = bound_fault(p, lists) {
        return Err(fault);
    }
    let bound = least_of_root(groups, lists);
    if is_cost(bound, written) {
        return Ok(written);
    }
    Err(CheckFault::NotTight {
        cost: written,
        bound,
    })
}
