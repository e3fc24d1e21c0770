//! The lines of a plan's nodes.

ghost use Rattle.std.specs.List.{AllByRecursion};
ghost use Rattle.std.specs.Prelude.{◌≡◌, ◌+◌, ◌++◌, ◌<◌, ◌^◌, None, map, sum, OnOk};
ghost use Rattle.pdw_explain.specs.Lines.{explained_node, flows_in, lines_in, operator_lines};
ghost use Rattle.pdw_explain.specs.Makes.{makes};
ghost use Rattle.pdw_memo.specs.Memo.{IsMemo};
ghost use Rattle.pdw_move.specs.Cost.{AreInRange};
ghost use Rattle.pdw_plan.specs.Count.{node_count};
ghost use Rattle.pdw_plan.specs.Given.{expr_over};
ghost use Rattle.pdw_plan.specs.Walk.{no_costs};
ghost use Rattle.pdw_ways.specs.Shape.{shape_of};

use crate::made::{made_by, made_by_each};
use crate::moved::{free_line, move_line};
use crate::operator::push_operator;
use pdw_answer::PlanLine;
use pdw_base::NoMemory;
use pdw_plan::{Made, Plan, Problem};
use std::alloc::Global;

#[cycle(lines)]
fn push_plans(
    alloc: Global,
    plans: &[Plan],
    p: &Problem<'_>,
    depth: u32,
    lines: &mut Vec<PlanLine>,
) -> Result<(), NoMemory>
    requires few { depth + sum (map node_count plans.now) < 2 ^ 32 }
    requires constants { AreInRange p.now.constants.now }
    requires ways { AllByRecursion (λ plan. (shape_of p.now.memo.now.groups no_costs plan).fault ≡ None) plans.now }
    ensures { OnOk result ((is : IsMemo p.now.memo.now) → lines.new.items ≡ lines.old.items ++ lines_in depth (map (explained_node p.now.memo.now.groups (flows_in p.now.memo.now is p.now.book.now p.now.n p.now.constants.now)) plans.now)) }
{
    for plan in plans {
        push_plan(alloc, plan, p, depth, lines)?;
    }
    Ok(())
}

// An operator over its children.
fn push_node(
    alloc: Global,
    made: Made,
    children: &[Plan],
    p: &Problem<'_>,
    depth: u32,
    lines: &mut Vec<PlanLine>,
) -> Result<(), NoMemory>
    ensures { OnOk result (lines.new.items ≡ lines.old.items ++ operator_lines depth made (expr_over p.now.memo.now.groups made.group (map makes children.now))) }
{
    let below = made_by_each(alloc, children)?;
    push_operator(alloc, p.memo.groups(), depth, made, below.as_slice(), lines)
}

/// Adds the lines of a plan of which each node is a way: its last node has so many above it.
#[cycle(lines)]
pub fn push_plan(
    alloc: Global,
    plan: &Plan,
    p: &Problem<'_>,
    depth: u32,
    lines: &mut Vec<PlanLine>,
) -> Result<(), NoMemory>
    requires few { depth + node_count plan.now < 2 ^ 32 }
    requires constants { AreInRange p.now.constants.now }
    requires ways { (shape_of p.now.memo.now.groups no_costs plan.now).fault ≡ None }
    ensures { OnOk result ((is : IsMemo p.now.memo.now) → lines.new.items ≡ lines.old.items ++ (explained_node p.now.memo.now.groups (flows_in p.now.memo.now is p.now.book.now p.now.n p.now.constants.now) plan.now).lines depth) }
{
    match plan {
        Plan::Scan { group, prop } => {
            let made = Made {
                group: *group,
                prop: *prop,
            };
            push_operator(alloc, p.memo.groups(), depth, made, &[], lines)
        }
        Plan::Op {
            group,
            prop,
            children,
        } => {
            let made = Made {
                group: *group,
                prop: *prop,
            };
            push_node(alloc, made, children.as_slice(), p, depth, lines)?;
            push_plans(alloc, children.as_slice(), p, depth + 1, lines)
        }
        Plan::Moved { mv, child } => {
            let group = made_by(child.get()).group;
            lines.push(move_line(p, depth, group, *mv))?;
            push_plan(alloc, child.get(), p, depth + 1, lines)
        }
        Plan::Free { to, child } => {
            let group = made_by(child.get()).group;
            lines.push(free_line(depth, group, *to))?;
            push_plan(alloc, child.get(), p, depth + 1, lines)
        }
    }
}
