//! What plans cost.

ghost use Rattle.std.specs.List.{AllByRecursion};
ghost use Rattle.std.specs.Prelude.{◌≡◌, ◌*◌, ◌<◌, ◌≤◌, ◌^◌, None, length, map, sum};
ghost use Rattle.pdw_memo.specs.Memo.{IsMemo};
ghost use Rattle.pdw_move.specs.Cost.{AreInRange};
ghost use Rattle.pdw_plan.specs.Cost.{costs_in};
ghost use Rattle.pdw_plan.specs.Count.{node_count};
ghost use Rattle.pdw_plan.specs.Walk.{no_costs};
ghost use Rattle.pdw_ways.specs.Shape.{cost_in, query_fault, shape_of};

use crate::Problem;
use pdw_groups::GroupId;
use pdw_move::{Flow, Move, move_cost};
use pdw_sizes::size_of;
use pdw_ways::Plan;

// The group of what is made, and what it costs.
#[derive(Clone, Copy)]
struct Price {
    group: GroupId,
    cost: u128,
}

// What a move of a group costs.
fn cost_at(p: &Problem<'_>, group: GroupId, mv: &Move) -> u128
    requires group { group.0 < length p.now.memo.now.groups }
    requires constants { AreInRange p.now.constants.now }
    ensures cost { (is : IsMemo p.now.memo.now) → result ≡ costs_in p.now.memo.now is p.now.book.now p.now.n p.now.constants.now group mv.now }
    ensures most { result < 2 ^ 96 }
{
    let _groups = p.memo.groups();
    p.book.keeps_ranges();
    let _nodes = p.n.get();
    let size = size_of(p.memo, group, p.book, p.n);
    let flow = Flow {
        rows: size.rows,
        width: size.width,
    };
    move_cost(mv, flow, p.n, p.constants)
}

#[cycle(cost)]
fn cost_all(plans: &[Plan], p: &Problem<'_>) -> u128
    requires few { sum (map node_count plans.now) < 2 ^ 32 }
    requires constants { AreInRange p.now.constants.now }
    requires ways { AllByRecursion (λ plan. (shape_of p.now.memo.now.groups no_costs plan).fault ≡ None) plans.now }
    ensures cost { (is : IsMemo p.now.memo.now) → result ≡ cost_in (map (shape_of p.now.memo.now.groups (costs_in p.now.memo.now is p.now.book.now p.now.n p.now.constants.now)) plans.now) }
    ensures most { result ≤ sum (map node_count plans.now) * 2 ^ 96 }
{
    let mut cost = 0;
    for plan in plans {
        cost += costed(plan, p).cost;
    }
    cost
}

#[cycle(cost)]
fn costed(plan: &Plan, p: &Problem<'_>) -> Price
    requires few { node_count plan.now < 2 ^ 32 }
    requires constants { AreInRange p.now.constants.now }
    requires ways { (shape_of p.now.memo.now.groups no_costs plan.now).fault ≡ None }
    ensures group { result.group ≡ (shape_of p.now.memo.now.groups no_costs plan.now).made.group }
    ensures cost { (is : IsMemo p.now.memo.now) → result.cost ≡ (shape_of p.now.memo.now.groups (costs_in p.now.memo.now is p.now.book.now p.now.n p.now.constants.now) plan.now).cost }
    ensures most { result.cost ≤ node_count plan.now * 2 ^ 96 }
{
    match plan {
        Plan::Scan { group, .. } => Price {
            group: *group,
            cost: 0,
        },
        Plan::Op {
            group,
            children,
            ..
        } => Price {
            group: *group,
            cost: cost_all(children.as_slice(), p),
        },
        Plan::Moved { mv, child } => {
            let below = costed(child.get(), p);
            let added = cost_at(p, below.group, mv);
            Price {
                group: below.group,
                cost: below.cost + added,
            }
        }
        Plan::Free { child, .. } => costed(child.get(), p),
    }
}

/// What a plan for the query costs: the sum of what its moves cost, each by the size of the group whose rows it moves. The
/// constants are in their ranges. It takes no memory.
pub fn cost_of(plan: &Plan, p: &Problem<'_>) -> u128
    requires few { node_count plan.now < 2 ^ 32 }
    requires constants { AreInRange p.now.constants.now }
    requires well_formed { query_fault p.now.memo.now.groups (shape_of p.now.memo.now.groups no_costs plan.now) ≡ None }
    ensures { (is : IsMemo p.now.memo.now) → result ≡ (shape_of p.now.memo.now.groups (costs_in p.now.memo.now is p.now.book.now p.now.n p.now.constants.now) plan.now).cost }
{
    costed(plan, p).cost
}
