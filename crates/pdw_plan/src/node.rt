//! Whether a node of a plan is a way to make the rows of its group, over what its children make.

ghost use Rattle.std.specs.List.{list_any};
ghost use Rattle.std.specs.Prelude.{◌≡◌, [], ◌∷◌};
ghost use Rattle.pdw_plan.specs.Walk as walk;
ghost use Rattle.pdw_rules.specs.Rules as rule;
ghost use Rattle.pdw_ways.specs.Ways as way;

use pdw_groups::{Expr, Group, GroupId};
use pdw_move::{Move, Prop};
use pdw_rules::{is_free, is_same, local_rule, may_have};
use pdw_ways::Made;
use sqlite_items::at;

/// What the children of a node make: an operator has at most two.
#[derive(Clone, Copy, PartialEq, Eq)]
pub(crate) enum Children {
    Nothing,
    One(Made),
    Two(Made, Made),
    More,
}

impl Children {
    /// These and one more.
    pub(crate) fn with(self, made: Made) -> Children
        ensures { result ≡ walk.with_child self made }
    {
        match self {
            Children::Nothing => Children::One(made),
            Children::One(first) => Children::Two(first, made),
            Children::Two(_, _) => Children::More,
            Children::More => Children::More,
        }
    }
}

// ---- expressions

fn scans(expr: &Expr, wanted: Prop) -> bool
    ensures { result ≡ rule.leaf_rule expr.now.op wanted }
{
    local_rule(&expr.op, &[], wanted)
}

fn operates_one(child: Made, wanted: Prop, expr: &Expr) -> bool
    ensures { result ≡ way.operates (child ∷ []) wanted expr.now }
{
    match expr.children.as_slice() {
        [only] => child.group.0 == only.0 && local_rule(&expr.op, &[child.prop], wanted),
        _ => false,
    }
}

fn operates_two(left: Made, right: Made, wanted: Prop, expr: &Expr) -> bool
    ensures { result ≡ way.operates (left ∷ right ∷ []) wanted expr.now }
{
    match expr.children.as_slice() {
        [first, second] => {
            left.group.0 == first.0
                && right.group.0 == second.0
                && local_rule(&expr.op, &[left.prop, right.prop], wanted)
        }
        _ => false,
    }
}

fn some_scans(exprs: &[Expr], wanted: Prop) -> bool
    ensures { result ≡ list_any (λ expr. rule.leaf_rule expr.op wanted) exprs.now }
{
    exprs.iter().any(|expr| scans(expr, wanted))
}

fn some_operates_one(exprs: &[Expr], child: Made, wanted: Prop) -> bool
    ensures { result ≡ list_any (way.operates (child ∷ []) wanted) exprs.now }
{
    exprs.iter().any(|expr| operates_one(child, wanted, expr))
}

fn some_operates_two(exprs: &[Expr], left: Made, right: Made, wanted: Prop) -> bool
    ensures { result ≡ list_any (way.operates (left ∷ right ∷ []) wanted) exprs.now }
{
    exprs
        .iter()
        .any(|expr| operates_two(left, right, wanted, expr))
}

// ---- groups

fn is_scanned(group: &Group, wanted: Prop) -> bool
    ensures { result ≡ way.is_scanned group.now wanted }
{
    may_have(group.interesting.as_slice(), wanted) && some_scans(group.exprs.as_slice(), wanted)
}

fn is_operated(group: &Group, children: Children, wanted: Prop) -> bool
    ensures { result ≡ walk.operated children wanted group.now }
{
    let exprs = group.exprs.as_slice();
    let may = may_have(group.interesting.as_slice(), wanted);
    match children {
        Children::One(child) => may && some_operates_one(exprs, child, wanted),
        Children::Two(left, right) => may && some_operates_two(exprs, left, right, wanted),
        Children::Nothing => false,
        Children::More => false,
    }
}
// ---- nodes of plans, by the numbers of their groups

/// Whether the rows of a group are scanned so.
pub(crate) fn is_scanned_at(groups: &[Group], number: GroupId, wanted: Prop) -> bool
    ensures { result ≡ way.is_at groups.now number (λ group. way.is_scanned group wanted) }
{
    match at(groups, number.0 as usize) {
        Some(group) => is_scanned(group, wanted),
        None => false,
    }
}

/// Whether an operator of a group makes its rows so, over these children.
pub(crate) fn is_operated_at(
    groups: &[Group],
    number: GroupId,
    children: Children,
    wanted: Prop,
) -> bool
    ensures { result ≡ way.is_at groups.now number (walk.operated children wanted) }
{
    match at(groups, number.0 as usize) {
        Some(group) => is_operated(group, children, wanted),
        None => false,
    }
}

/// Whether a move takes what is made.
pub(crate) fn is_moved_at(groups: &[Group], made: Made, mv: Move) -> bool
    ensures { result ≡ way.is_at groups.now made.group (λ group. way.is_moved group mv made.prop) }
{
    match at(groups, made.group.0 as usize) {
        Some(group) => {
            is_same(mv.from(), made.prop) && may_have(group.interesting.as_slice(), mv.to())
        }
        None => false,
    }
}

/// Whether what is made has another property too, for nothing.
pub(crate) fn is_freed_at(groups: &[Group], made: Made, to: Prop) -> bool
    ensures { result ≡ way.is_at groups.now made.group (λ group. way.is_freed group made.prop to) }
{
    match at(groups, made.group.0 as usize) {
        Some(group) => is_free(made.prop, to) && may_have(group.interesting.as_slice(), to),
        None => false,
    }
}
