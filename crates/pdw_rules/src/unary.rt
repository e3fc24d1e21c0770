//! The rules of scans, filters, projections and groups.

ghost use Rattle.std.specs.Prelude.{◌≡◌};
ghost use Rattle.pdw_rules.specs.Rules as rule;

use crate::property::{is_among, is_same};
use pdw_base::ColId;
use pdw_expr::Scalar;
use pdw_move::Prop;

fn scan_property(hash: Option<ColId>, replicated: bool) -> Prop
    ensures { result ≡ rule.scan_property hash replicated }
{
    if replicated {
        return Prop::Replicated;
    }
    match hash {
        Some(column) => Prop::Hash(column),
        None => Prop::Spread,
    }
}

/// Whether a scan gives rows under a property: `hash` is the column that is read by which the table is placed.
pub fn scan_has(hash: Option<ColId>, replicated: bool, wanted: Prop) -> bool
    ensures { result ≡ rule.scan_rule hash replicated wanted }
{
    is_same(scan_property(hash, replicated), wanted)
}

// Whether the item that makes the column is the column itself.
fn passes(items: &[(ColId, Option<Scalar>)], c: ColId) -> bool
    ensures { result ≡ rule.passes items.now c }
{
    for item in items {
        if item.0.0 == c.0 {
            return item.1.is_none();
        }
    }
    false
}

fn projected_property(items: &[(ColId, Option<Scalar>)], p: Prop) -> Prop
    ensures { result ≡ rule.projected_property items.now p }
{
    match p {
        Prop::Hash(column) if !passes(items, column) => Prop::Spread,
        _ => p,
    }
}

pub(crate) fn project_rule(items: &[(ColId, Option<Scalar>)], p: Prop, wanted: Prop) -> bool
    ensures { result ≡ rule.project_rule items.now p wanted }
{
    is_same(projected_property(items, p), wanted)
}

// Whether rows of one group stand at one node.
fn is_grouped(keys: &[ColId], p: Prop) -> bool
    ensures { result ≡ rule.is_grouped keys.now p }
{
    match p {
        Prop::Spread => false,
        Prop::Hash(column) => is_among(keys, column),
        Prop::Replicated | Prop::Single | Prop::Control => true,
    }
}

pub(crate) fn group_rule(keys: &[ColId], p: Prop, wanted: Prop) -> bool
    ensures { result ≡ rule.group_rule keys.now p wanted }
{
    is_grouped(keys, p) && is_same(p, wanted)
}

fn partial_property(keys: &[ColId], p: Prop) -> Prop
    ensures { result ≡ rule.partial_property keys.now p }
{
    match p {
        Prop::Hash(column) if !is_among(keys, column) => Prop::Spread,
        _ => p,
    }
}

pub(crate) fn partial_rule(keys: &[ColId], p: Prop, wanted: Prop) -> bool
    ensures { result ≡ rule.partial_rule keys.now p wanted }
{
    is_same(partial_property(keys, p), wanted)
}
