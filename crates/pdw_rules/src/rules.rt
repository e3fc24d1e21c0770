//! The local rules, operator by operator.

ghost use Rattle.std.specs.Prelude.{◌≡◌};
ghost use Rattle.pdw_rules.specs.Rules as rule;

use crate::joins::join_rule;
use crate::property::is_same;
use crate::unary::{group_rule, partial_rule, project_rule, scan_has};
use pdw_groups::Op;
use pdw_move::Prop;

fn leaf_rule(op: &Op, wanted: Prop) -> bool
    ensures { result ≡ rule.leaf_rule op.now wanted }
{
    match op {
        Op::Scan {
            hash,
            replicated,
            ..
        } => scan_has(*hash, *replicated, wanted),
        _ => false,
    }
}

fn unary_rule(op: &Op, p: Prop, wanted: Prop) -> bool
    ensures { result ≡ rule.unary_rule op.now p wanted }
{
    match op {
        Op::Filter { .. } => is_same(p, wanted),
        Op::Project { items } => project_rule(items.as_slice(), p, wanted),
        Op::GroupBy { keys, .. } => group_rule(keys.as_slice(), p, wanted),
        Op::Partial { keys, .. } => partial_rule(keys.as_slice(), p, wanted),
        Op::Final { keys, .. } => group_rule(keys.as_slice(), p, wanted),
        _ => false,
    }
}

fn binary_rule(op: &Op, p: Prop, q: Prop, wanted: Prop) -> bool
    ensures { result ≡ rule.binary_rule op.now p q wanted }
{
    match op {
        Op::Join { kind, conds } => join_rule(*kind, conds.as_slice(), p, q, wanted),
        _ => false,
    }
}

/// Whether an operator that is applied at each node, to rows of its children that stand under these properties, gives rows
/// that stand under the wanted one.
pub fn local_rule(op: &Op, props: &[Prop], wanted: Prop) -> bool
    ensures { result ≡ rule.local_rule op.now props.now wanted }
{
    match props {
        [] => leaf_rule(op, wanted),
        [p] => unary_rule(op, *p, wanted),
        [p, q] => binary_rule(op, *p, *q, wanted),
        _ => false,
    }
}
