//! The rules of joins.

ghost use Rattle.std.specs.Prelude.{◌≡◌, [], ◌∷◌};
ghost use Rattle.pdw_groups.specs.Columns as columns;
ghost use Rattle.pdw_rules.specs.Rules as rule;

use crate::property::is_same;
use pdw_base::ColId;
use pdw_expr::{Cmp, Cond, JoinKind, Scalar};
use pdw_move::Prop;

// ---- conjuncts that compare two columns by `=`

fn column_alone(e: &Scalar) -> Option<ColId>
    ensures { result ≡ columns.column_alone e.now }
{
    match e {
        Scalar::Col(c) => Some(*c),
        _ => None,
    }
}

fn is_pair(a: ColId, b: ColId, first: ColId, second: ColId) -> bool
    ensures { result ≡ rule.is_pair a b (first ∷ second ∷ []) }
{
    (first.0 == a.0 && second.0 == b.0) || (first.0 == b.0 && second.0 == a.0)
}

fn equates(a: ColId, b: ColId, conjunct: &Cond) -> bool
    ensures { result ≡ rule.equates a b conjunct.now }
{
    if let Cond::Compare(Cmp::Eq, left, right) = conjunct {
        if let (Some(first), Some(second)) = (column_alone(left), column_alone(right)) {
            return is_pair(a, b, first, second);
        }
    }
    false
}

fn matches_on(conds: &[Cond], a: ColId, b: ColId) -> bool
    ensures { result ≡ rule.matches_on conds.now a b }
{
    for conjunct in conds {
        if equates(a, b, conjunct) {
            return true;
        }
    }
    false
}

// ---- the lines of the rule

fn matched_rule(kind: JoinKind, a: ColId, b: ColId, wanted: Prop) -> bool
    ensures { result ≡ rule.matched_rule kind a b wanted }
{
    match kind {
        JoinKind::Inner => is_same(Prop::Hash(a), wanted) || is_same(Prop::Hash(b), wanted),
        JoinKind::Full => is_same(Prop::Spread, wanted),
        JoinKind::Left | JoinKind::Semi | JoinKind::Anti => is_same(Prop::Hash(a), wanted),
    }
}

fn hashes_rule(kind: JoinKind, conds: &[Cond], p: Prop, q: Prop, wanted: Prop) -> bool
    ensures { result ≡ rule.hashes_rule kind conds.now p q wanted }
{
    match (p, q) {
        (Prop::Hash(a), Prop::Hash(b)) => {
            matches_on(conds, a, b) && matched_rule(kind, a, b, wanted)
        }
        _ => false,
    }
}

fn is_divided(p: Prop) -> bool
    ensures { result ≡ rule.is_divided p }
{
    matches!(p, Prop::Spread | Prop::Hash(_) | Prop::Single)
}

fn is_whole(p: Prop) -> bool
    ensures { result ≡ rule.is_whole p }
{
    matches!(p, Prop::Replicated | Prop::Single | Prop::Control)
}

fn replicated_right_rule(kind: JoinKind, p: Prop, q: Prop, wanted: Prop) -> bool
    ensures { result ≡ rule.replicated_right_rule kind p q wanted }
{
    !matches!(kind, JoinKind::Full)
        && is_divided(p)
        && is_same(q, Prop::Replicated)
        && is_same(p, wanted)
}

fn replicated_left_rule(kind: JoinKind, p: Prop, q: Prop, wanted: Prop) -> bool
    ensures { result ≡ rule.replicated_left_rule kind p q wanted }
{
    matches!(kind, JoinKind::Inner)
        && is_same(p, Prop::Replicated)
        && is_divided(q)
        && is_same(q, wanted)
}

fn one_site_rule(p: Prop, q: Prop, wanted: Prop) -> bool
    ensures { result ≡ rule.one_site_rule p q wanted }
{
    is_whole(p) && is_same(p, q) && is_same(p, wanted)
}

pub(crate) fn join_rule(kind: JoinKind, conds: &[Cond], p: Prop, q: Prop, wanted: Prop) -> bool
    ensures { result ≡ rule.join_rule kind conds.now p q wanted }
{
    hashes_rule(kind, conds, p, q, wanted)
        || replicated_right_rule(kind, p, q, wanted)
        || replicated_left_rule(kind, p, q, wanted)
        || one_site_rule(p, q, wanted)
}
