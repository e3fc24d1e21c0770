//! The nodes of a plan as data.

ghost use Rattle.std.specs.Prelude.{◌≡◌, ◌+◌, ◌++◌, ◌∷◌, [], true, length, map, nat_le, string_bytes, IfOk, OnOk};
ghost use Rattle.std.specs.List.{list_all};
ghost use Rattle.serde_json.specs.View.{view};
ghost use Rattle.pdw_planjson.specs.Limits as limits;
ghost use Rattle.pdw_planjson.specs.Written as spec;

use crate::line::Task;
use pdw_base::{ColId, NoMemory};
use pdw_groups::GroupId;
use pdw_move::{Move, Prop};
use pdw_ways::Plan;
use serde_json::{Value, json};
use std::alloc::Global;

// A group's number, which its type keeps in its range.
fn group_number(group: GroupId) -> u32
    ensures value { result ≡ group.0 }
    ensures range { limits.is_group group ≡ true }
{
    group.0
}

// A column's number, which its type keeps in its range.
fn column_number(column: ColId) -> u16
    ensures value { result ≡ column.0 }
    ensures range { nat_le column.0 65535 ≡ true }
{
    column.0
}

fn prop_word(alloc: Global, prop: Prop) -> Result<String, NoMemory>
    ensures word { IfOk result (λ word. string_bytes word ≡ spec.prop_word prop) }
    ensures column { OnOk result (limits.has_column prop ≡ true) }
{
    match prop {
        Prop::Spread => Ok(String::from_str(alloc, "spread")?),
        Prop::Hash(column) => Ok(format!(in alloc; "hash:{}", column_number(column))?),
        Prop::Replicated => Ok(String::from_str(alloc, "replicated")?),
        Prop::Single => Ok(String::from_str(alloc, "single")?),
        Prop::Control => Ok(String::from_str(alloc, "control")?),
    }
}

fn move_word(mv: Move) -> &'static str
    ensures { result.now ≡ spec.move_word mv }
{
    match mv {
        Move::Shuffle(_) => "shuffle",
        Move::ToSingle => "tosingle",
        Move::ToControl => "tocontrol",
        Move::Broadcast => "broadcast",
        Move::Trim(_) => "trim",
        Move::FromControl => "fromcontrol",
        Move::FromSingle => "fromsingle",
    }
}

fn kind_word(task: Task) -> &'static str
    ensures { result.now ≡ spec.kind_word task }
{
    match task {
        Task::Scan(_) => "scan",
        Task::Op(_) => "op",
        Task::Free(_) => "free",
        Task::Move(mv) => move_word(mv),
    }
}

fn prop_of(task: Task) -> Prop
    ensures { result ≡ spec.prop_of task }
{
    match task {
        Task::Scan(prop) | Task::Op(prop) | Task::Free(prop) => prop,
        Task::Move(mv) => mv.to(),
    }
}

fn node_value(
    alloc: Global,
    kids: Vec<Value>,
    group: GroupId,
    task: Task,
) -> Result<Value, NoMemory>
    ensures value { IfOk result (λ value. view value ≡ spec.node_data (map view kids.items) group task) }
    ensures group { OnOk result (limits.is_group group ≡ true) }
    ensures column { OnOk result (limits.has_column (spec.prop_of task) ≡ true) }
{
    let Ok(prop) = prop_word(alloc, prop_of(task)) else {
        return Err(NoMemory);
    };
    let node =
        json!(in alloc; {"children": kids, "group": group_number(group), "kind": kind_word(task), "prop": prop});
    match node {
        Ok(node) => Ok(node),
        Err(_) => Err(NoMemory),
    }
}

/// The root of a plan whose nodes are written.
#[derive(Clone, Copy)]
pub struct Root {
    number: usize,
    group: GroupId,
}

// A node after its children.
fn write_node(
    alloc: Global,
    kids: Vec<Value>,
    group: GroupId,
    task: Task,
    nodes: &mut Vec<Value>,
) -> Result<Root, NoMemory>
    ensures root { IfOk result (λ root. (root.number ≡ length nodes.old.items) × (root.group ≡ group)) }
    ensures group { OnOk result (limits.is_group group ≡ true) }
    ensures column { OnOk result (limits.has_column (spec.prop_of task) ≡ true) }
    ensures count { OnOk result (length nodes.new.items ≡ length nodes.old.items + 1) }
    ensures nodes { OnOk result (map view nodes.new.items ≡ map view nodes.old.items ++ spec.node_data (map view kids.items) group task ∷ []) }
{
    let number = nodes.len();
    let node = node_value(alloc, kids, group, task)?;
    nodes.push(node)?;
    Ok(Root { number, group })
}

fn one_kid(alloc: Global, number: usize) -> Result<Vec<Value>, NoMemory>
    ensures { IfOk result (λ kids. map view kids.items ≡ spec.whole number ∷ []) }
{
    let mut kids = Vec::new(alloc);
    kids.push(Value::from(number))?;
    Ok(kids)
}

#[cycle(write)]
#[tactic(auto, using(crate::proofs::BoolLaws::and_next, crate::proofs::BoolLaws::both_hold))]
fn write_all(alloc: Global, plans: &[Plan], nodes: &mut Vec<Value>) -> Result<Vec<Value>, NoMemory>
    ensures kids { IfOk result (λ kids. map view kids.items ≡ spec.roots (length nodes.old.items) (map spec.listing plans.now)) }
    ensures numbers { OnOk result (list_all (λ numbers. numbers) (map limits.has_numbers plans.now) ≡ true) }
    ensures count { OnOk result (length nodes.new.items ≡ length nodes.old.items + spec.count_of_all (map spec.listing plans.now)) }
    ensures nodes { OnOk result (map view nodes.new.items ≡ map view nodes.old.items ++ spec.nodes_of_all (length nodes.old.items) (map spec.listing plans.now)) }
{
    let mut kids = Vec::new(alloc);
    for plan in plans {
        let root = write(alloc, plan, nodes)?;
        kids.push(Value::from(root.number))?;
    }
    Ok(kids)
}

/// Writes the nodes of a plan, children first, after those that stand there.
#[cycle(write)]
#[tactic(auto, using(crate::proofs::BoolLaws::and_next, crate::proofs::BoolLaws::both_hold))]
pub fn write(alloc: Global, plan: &Plan, nodes: &mut Vec<Value>) -> Result<Root, NoMemory>
    ensures root { IfOk result (λ root. (root.number ≡ length nodes.old.items + (spec.listing plan.now).before) × (root.group ≡ (spec.listing plan.now).group)) }
    ensures numbers { OnOk result (limits.has_numbers plan.now ≡ true) }
    ensures count { OnOk result (length nodes.new.items ≡ length nodes.old.items + (spec.listing plan.now).before + 1) }
    ensures nodes { OnOk result (map view nodes.new.items ≡ map view nodes.old.items ++ (spec.listing plan.now).nodes (length nodes.old.items)) }
{
    match plan {
        Plan::Scan { group, prop } => {
            write_node(alloc, Vec::new(alloc), *group, Task::Scan(*prop), nodes)
        }
        Plan::Op {
            group,
            prop,
            children,
        } => {
            let kids = write_all(alloc, children.as_slice(), nodes)?;
            write_node(alloc, kids, *group, Task::Op(*prop), nodes)
        }
        Plan::Moved { mv, child } => {
            let root = write(alloc, child.get(), nodes)?;
            let kids = one_kid(alloc, root.number)?;
            write_node(alloc, kids, root.group, Task::Move(*mv), nodes)
        }
        Plan::Free { to, child } => {
            let root = write(alloc, child.get(), nodes)?;
            let kids = one_kid(alloc, root.number)?;
            write_node(alloc, kids, root.group, Task::Free(*to), nodes)
        }
    }
}
