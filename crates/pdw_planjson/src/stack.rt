//! The nodes of a file over the stack of those that no other node has taken yet.

ghost use Rattle.std.specs.Prelude.{◌≡◌, ◌<◌, ◌≤◌, [], ◌∷◌, max, reverse, IfOk, MatchOption, OnOk};
ghost use Rattle.pdw_planjson.specs.Stack as spec;

use crate::line::{Kids, Line, Task};
use pdw_base::NoMemory;
use pdw_groups::GroupId;
use pdw_ways::Plan;
use sqlite_items::{Boxed, Items};
use std::alloc::Global;

/// The most nodes on a way from a node to a leaf below it.
const MOST_HEIGHT: u64 = 4096;

/// A node that no other has taken yet, with the plan that it is the root of.
#[derive(Drop)]
pub struct Entry {
    pub number: u64,
    pub group: GroupId,
    pub height: u64,
    pub plan: Boxed<Plan>,
}

/// Takes the last entry.
pub fn pop(stack: &mut Items<Entry>) -> Option<Entry>
    ensures { MatchOption result (reverse stack.old ≡ []) (λ top. reverse stack.old ≡ top ∷ reverse stack.new) }
{
    stack.pop()
}

fn push(
    alloc: Global,
    stack: &mut Items<Entry>,
    number: u64,
    group: GroupId,
    height: u64,
    plan: Plan,
) -> Result<(), NoMemory>
    ensures { OnOk result (reverse stack.new ≡ spec.on_top number group height (reverse stack.old) plan) }
{
    let plan = Boxed::new(alloc, plan)?;
    stack.push(Entry {
        number,
        group,
        height,
        plan,
    })?;
    Ok(())
}

fn leaf_plan(group: GroupId, task: Task) -> Option<Plan>
    ensures { result ≡ spec.leaf_plan group task }
{
    match task {
        Task::Scan(prop) => Some(Plan::Scan { group, prop }),
        _ => None,
    }
}

fn plan_over_one(
    alloc: Global,
    group: GroupId,
    task: Task,
    of: GroupId,
    child: Boxed<Plan>,
) -> Result<Option<Plan>, NoMemory>
    ensures { IfOk result (λ plan. plan ≡ spec.plan_over_one group task of child) }
{
    match task {
        Task::Op(prop) => {
            let mut children = Items::new(alloc);
            children.push(child.into_inner())?;
            Ok(Some(Plan::Op {
                group,
                prop,
                children,
            }))
        }
        Task::Free(to) if group.0 == of.0 => Ok(Some(Plan::Free { to, child })),
        Task::Move(mv) if group.0 == of.0 => Ok(Some(Plan::Moved { mv, child })),
        _ => Ok(None),
    }
}

fn plan_over_two(
    alloc: Global,
    group: GroupId,
    task: Task,
    left: Boxed<Plan>,
    right: Boxed<Plan>,
) -> Result<Option<Plan>, NoMemory>
    ensures { IfOk result (λ plan. plan ≡ spec.plan_over_two group task left right) }
{
    match task {
        Task::Op(prop) => {
            let mut children = Items::new(alloc);
            children.push(left.into_inner())?;
            children.push(right.into_inner())?;
            Ok(Some(Plan::Op {
                group,
                prop,
                children,
            }))
        }
        _ => Ok(None),
    }
}

fn place_leaf(
    alloc: Global,
    number: u64,
    line: Line,
    stack: &mut Items<Entry>,
) -> Result<bool, NoMemory>
    ensures { IfOk result (λ fits. spec.placed_leaf number line (reverse stack.old) ≡ spec.kept fits (reverse stack.new)) }
{
    match leaf_plan(line.group, line.task) {
        Some(plan) => {
            push(alloc, stack, number, line.group, 1, plan)?;
            Ok(true)
        }
        None => Ok(false),
    }
}

fn place_over_one(
    alloc: Global,
    number: u64,
    line: Line,
    only: u64,
    stack: &mut Items<Entry>,
) -> Result<bool, NoMemory>
    ensures { IfOk result (λ fits. spec.placed_over_one number line only (reverse stack.old) ≡ spec.kept fits (reverse stack.new)) }
{
    let Some(child) = pop(stack) else {
        return Ok(false);
    };
    if child.number != only || child.height >= MOST_HEIGHT {
        return Ok(false);
    }
    let height = child.height + 1;
    match plan_over_one(alloc, line.group, line.task, child.group, child.plan)? {
        Some(plan) => {
            push(alloc, stack, number, line.group, height, plan)?;
            Ok(true)
        }
        None => Ok(false),
    }
}

fn place_over_two(
    alloc: Global,
    number: u64,
    line: Line,
    first: u64,
    second: u64,
    stack: &mut Items<Entry>,
) -> Result<bool, NoMemory>
    ensures { IfOk result (λ fits. spec.placed_over_two number line first second (reverse stack.old) ≡ spec.kept fits (reverse stack.new)) }
{
    let Some(right) = pop(stack) else {
        return Ok(false);
    };
    let Some(left) = pop(stack) else {
        return Ok(false);
    };
    let height = left.height.max(right.height);
    if left.number != first || right.number != second || height >= MOST_HEIGHT {
        return Ok(false);
    }
    match plan_over_two(alloc, line.group, line.task, left.plan, right.plan)? {
        Some(plan) => {
            push(alloc, stack, number, line.group, height + 1, plan)?;
            Ok(true)
        }
        None => Ok(false),
    }
}

/// Puts a node in its children's place, and answers whether the rules allow it.
pub fn place(
    alloc: Global,
    number: u64,
    line: Line,
    stack: &mut Items<Entry>,
) -> Result<bool, NoMemory>
    ensures { IfOk result (λ fits. spec.placed number line (reverse stack.old) ≡ spec.kept fits (reverse stack.new)) }
{
    match line.kids {
        Kids::Nobody => place_leaf(alloc, number, line, stack),
        Kids::One(only) => place_over_one(alloc, number, line, only, stack),
        Kids::Two(first, second) => place_over_two(alloc, number, line, first, second, stack),
    }
}
