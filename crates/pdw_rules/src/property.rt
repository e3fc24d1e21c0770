//! Properties: which are the same, which a group may have, and which change into which for nothing.

ghost use Rattle.std.specs.Prelude.{◌≡◌, ◌++◌, [], ◌∷◌, map, IfOk, OnOk};
ghost use Rattle.pdw_move.specs.declared.kinds.Prop.TheVariants.{Hash as ByHash};
ghost use Rattle.pdw_rules.specs.Rules as rule;

use pdw_base::{ColId, NoMemory};
use pdw_move::Prop;
use sqlite_items::Items;
use std::alloc::Global;

/// Whether two properties are the same.
pub fn is_same(first: Prop, second: Prop) -> bool
    ensures { result ≡ rule.is_same first second }
{
    match (first, second) {
        (Prop::Hash(column), Prop::Hash(other)) => column.0 == other.0,
        (Prop::Spread, Prop::Spread) => true,
        (Prop::Replicated, Prop::Replicated) => true,
        (Prop::Single, Prop::Single) => true,
        (Prop::Control, Prop::Control) => true,
        _ => false,
    }
}

/// Whether rows of one property have the other too, with no row moved.
pub fn is_free(from: Prop, to: Prop) -> bool
    ensures { result ≡ rule.is_free from to }
{
    match (from, to) {
        (Prop::Hash(_), Prop::Spread) => true,
        (Prop::Replicated, Prop::Single) => true,
        _ => false,
    }
}

/// Whether a column is among some columns.
pub fn is_among(columns: &[ColId], c: ColId) -> bool
    ensures { result ≡ rule.is_key columns.now c }
{
    columns.iter().any(|column| column.0 == c.0)
}

/// Whether a group with these interesting columns may have a property.
pub fn may_have(interesting: &[ColId], property: Prop) -> bool
    ensures { result ≡ rule.may_have interesting.now property }
{
    match property {
        Prop::Hash(column) => is_among(interesting, column),
        _ => true,
    }
}

/// The properties of a group with these interesting columns, in their order.
pub fn properties(alloc: Global, interesting: &[ColId]) -> Result<Items<Prop>, NoMemory>
    ensures { IfOk result (λ list. list ≡ rule.properties_of interesting.now) }
{
    let mut list = Items::new(alloc);
    list.push(Prop::Spread)?;
    add_hashes(&mut list, interesting)?;
    list.push(Prop::Replicated)?;
    list.push(Prop::Single)?;
    list.push(Prop::Control)?;
    Ok(list)
}

fn add_hashes(list: &mut Items<Prop>, interesting: &[ColId]) -> Result<(), NoMemory>
    ensures { OnOk result (list.new ≡ list.old ++ map ByHash interesting.now) }
{
    for column in interesting {
        list.push(Prop::Hash(*column))?;
    }
    Ok(())
}
