//! A node of a file by itself.

ghost use Rattle.std.specs.Prelude.{◌≡◌, map};
ghost use Rattle.serde_json.specs.View.{view};
ghost use Rattle.pdw_planjson.specs.Node as spec;

use crate::keys::{has_four, list_at, text_at, whole_at};
use crate::words::{prop_in, task_in};
use pdw_groups::GroupId;
use pdw_move::{Move, Prop};
use serde_json::Value;

/// What a node does.
#[derive(Clone, Copy)]
pub enum Task {
    /// It scans, and its rows stand under the property.
    Scan(Prop),
    /// An operator, whose rows stand under the property.
    Op(Prop),
    /// A free change to the property.
    Free(Prop),
    /// A move.
    Move(Move),
}

/// The numbers of a node's children, in order.
#[derive(Clone, Copy)]
pub enum Kids {
    Nobody,
    One(u64),
    Two(u64, u64),
}

/// A node by itself: the numbers of its children, its group, and what it does.
#[derive(Clone, Copy)]
pub struct Line {
    pub kids: Kids,
    pub group: GroupId,
    pub task: Task,
}

fn kids_in(list: &[Value]) -> Option<Kids>
    ensures { result ≡ spec.kids_in (map view list.now) }
{
    match list {
        [] => Some(Kids::Nobody),
        [only] => only.as_u64().map(Kids::One),
        [left, right] => match (left.as_u64(), right.as_u64()) {
            (Some(first), Some(second)) => Some(Kids::Two(first, second)),
            _ => None,
        },
        _ => None,
    }
}

fn kids_at(value: &Value) -> Option<Kids>
    ensures { result ≡ spec.kids_at (view value.now) }
{
    match list_at(value, "children") {
        Some(list) => kids_in(list),
        None => None,
    }
}

fn group_at(value: &Value) -> Option<GroupId>
    ensures { result ≡ spec.group_at (view value.now) }
{
    match whole_at(value, "group") {
        Some(number) if number < 4294967296 => Some(GroupId(number as u32)),
        _ => None,
    }
}

fn prop_at(value: &Value) -> Option<Prop>
    ensures { result ≡ spec.prop_at (view value.now) }
{
    match text_at(value, "prop") {
        Some(text) => prop_in(text),
        None => None,
    }
}

fn task_at(value: &Value) -> Option<Task>
    ensures { result ≡ spec.task_at (view value.now) }
{
    let prop = prop_at(value)?;
    match text_at(value, "kind") {
        Some(word) => task_in(word, prop),
        None => None,
    }
}

/// What the rules for a node by itself allow, or None.
pub fn line_in(value: &Value) -> Option<Line>
    ensures { result ≡ spec.line_in (view value.now) }
{
    if !has_four(value) {
        return None;
    }
    let kids = kids_at(value)?;
    let group = group_at(value)?;
    let task = task_at(value)?;
    Some(Line { kids, group, task })
}
