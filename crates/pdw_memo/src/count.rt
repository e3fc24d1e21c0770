//! How many joins a memo has.

ghost use Rattle.std.specs.Prelude.{◌≡◌, ◌<◌, ◌≤◌, ◌^◌, length};
ghost use Rattle.std.specs.List.{AllByRecursion, filter};
ghost use Rattle.pdw_memo.specs.Memo as spec;

use pdw_groups::{Expr, Group, GroupKey, Op};

fn is_join(op: &Op) -> bool
    ensures { result ≡ spec.is_join op.now }
{
    matches!(op, Op::Join { .. })
}

fn is_of_block(key: GroupKey, block: u32) -> bool
    ensures { result ≡ spec.is_of_block block key }
{
    match key {
        GroupKey::Part { block: other, .. } => other == block,
        GroupKey::Whole(_) | GroupKey::Partial(_) => false,
    }
}

fn joins_among(exprs: &[Expr]) -> u64
    ensures { result ≡ length (filter (λ expr. spec.is_join expr.op) exprs.now) }
{
    let mut joins = 0;
    for expr in exprs {
        if is_join(&expr.op) {
            joins += 1;
        }
    }
    joins
}

fn joins_in(group: &Group, block: u32) -> u64
    ensures { result ≡ length (spec.joins_in block group.now) }
{
    if is_of_block(group.key, block) {
        joins_among(group.exprs.as_slice())
    } else {
        0
    }
}

/// How many join expressions of a block there are.
pub fn join_count(groups: &[Group], block: u32) -> u64
    requires few { length groups.now < 2 ^ 32 }
    requires each { AllByRecursion (λ group. length group.exprs ≤ 1024) groups.now }
    ensures { result ≡ spec.join_count block groups.now }
{
    let mut joins = 0;
    for group in groups {
        joins += joins_in(group, block);
    }
    joins
}
