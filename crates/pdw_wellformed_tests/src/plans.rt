//! Plans made by hand, with their numbers of nodes.

ghost use Rattle.std.specs.Prelude.{◌≡◌, ◌+◌, suc, IfOk};
ghost use Rattle.pdw_plan.specs.Count.{node_count};

use pdw_base::NoMemory;
use pdw_groups::GroupId;
use pdw_move::{Move, Prop};
use pdw_plan::Plan;
use sqlite_items::{Boxed, Items};
use std::alloc::Global;

pub fn scan(group: u32, prop: Prop) -> Plan
    ensures { node_count result ≡ 1 }
{
    Plan::Scan {
        group: GroupId(group),
        prop,
    }
}

pub fn over_one(alloc: Global, group: u32, prop: Prop, child: Plan) -> Result<Plan, NoMemory>
    ensures { IfOk result (λ plan. node_count plan ≡ suc (node_count child)) }
{
    let mut children = Items::new(alloc);
    children.push(child)?;
    Ok(Plan::Op {
        group: GroupId(group),
        prop,
        children,
    })
}

pub fn over_two(
    alloc: Global,
    group: u32,
    prop: Prop,
    left: Plan,
    right: Plan,
) -> Result<Plan, NoMemory>
    ensures { IfOk result (λ plan. node_count plan ≡ suc (node_count left + node_count right)) }
{
    let mut children = Items::new(alloc);
    children.push(left)?;
    children.push(right)?;
    Ok(Plan::Op {
        group: GroupId(group),
        prop,
        children,
    })
}

pub fn moved(alloc: Global, mv: Move, child: Plan) -> Result<Plan, NoMemory>
    ensures { IfOk result (λ plan. node_count plan ≡ suc (node_count child)) }
{
    let child = Boxed::new(alloc, child)?;
    Ok(Plan::Moved { mv, child })
}

pub fn free(alloc: Global, to: Prop, child: Plan) -> Result<Plan, NoMemory>
    ensures { IfOk result (λ plan. node_count plan ≡ suc (node_count child)) }
{
    let child = Boxed::new(alloc, child)?;
    Ok(Plan::Free { to, child })
}
