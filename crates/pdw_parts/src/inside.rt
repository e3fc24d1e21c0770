//! Whether conjuncts lie inside some columns.

ghost use Rattle.std.specs.Prelude.{◌≡◌, ◌++◌, map, IfOk};
ghost use Rattle.std.specs.List.{filter, list_all};
ghost use Rattle.pdw_algebra.specs.Shape as shape;
ghost use Rattle.pdw_expr.specs.Columns as used;
ghost use Rattle.pdw_parts.specs.Part as part;

use pdw_base::{ColId, Kind, NoMemory};
use pdw_expr::{Arith, Cond, Scalar};
use sqlite_items::Items;
use std::alloc::Global;

fn has_number(columns: &[(ColId, Kind)], c: ColId) -> bool
    ensures { result ≡ shape.has_number c columns.now }
{
    columns.iter().any(|column| column.0.0 == c.0)
}

// Whether the columns of each operand of a chain are there.
#[cycle(scalars)]
fn links_inside(columns: &[(ColId, Kind)], links: &[(Arith, Scalar)]) -> bool
    ensures { result ≡ list_all (λ link. list_all (λ c. shape.has_number c columns.now) (used.scalar_columns link.1)) links.now }
{
    for link in links {
        if !scalar_inside(columns, &link.1) {
            return false;
        }
    }
    true
}

// Whether each column of an expression is there.
#[cycle(scalars)]
fn scalar_inside(columns: &[(ColId, Kind)], e: &Scalar) -> bool
    ensures { result ≡ list_all (λ c. shape.has_number c columns.now) (used.scalar_columns e.now) }
{
    match e {
        Scalar::Col(c) => has_number(columns, *c),
        Scalar::Lit(_) => true,
        Scalar::Neg(operand) => scalar_inside(columns, operand.get()),
        Scalar::Chain(first, rest) => {
            scalar_inside(columns, first.get()) && links_inside(columns, rest.as_slice())
        }
    }
}

fn both_inside(columns: &[(ColId, Kind)], a: &Scalar, b: &Scalar) -> bool
    ensures { result ≡ list_all (λ c. shape.has_number c columns.now) (used.scalar_columns a.now ++ used.scalar_columns b.now) }
{
    scalar_inside(columns, a) && scalar_inside(columns, b)
}

#[cycle(conds)]
fn parts_inside(columns: &[(ColId, Kind)], parts: &[Cond]) -> bool
    ensures { result ≡ list_all (part.is_inside columns.now) parts.now }
{
    for part in parts {
        if !is_inside(columns, part) {
            return false;
        }
    }
    true
}

/// Whether each column of a conjunct is there.
#[cycle(conds)]
pub fn is_inside(columns: &[(ColId, Kind)], conjunct: &Cond) -> bool
    ensures { result ≡ part.is_inside columns.now conjunct.now }
{
    match conjunct {
        Cond::Compare(_, a, b) => both_inside(columns, a, b),
        Cond::Like(text, pattern) => both_inside(columns, text, pattern),
        Cond::IsNull(e) => scalar_inside(columns, e),
        Cond::Test(part, _) => is_inside(columns, part.get()),
        Cond::Not(part) => is_inside(columns, part.get()),
        Cond::All(parts) => parts_inside(columns, parts.as_slice()),
        Cond::Any(parts) => parts_inside(columns, parts.as_slice()),
    }
}

/// The conjuncts inside some columns, in their order.
pub fn conds_inside(
    alloc: Global,
    columns: &[(ColId, Kind)],
    conds: &[Cond],
) -> Result<Items<Cond>, NoMemory>
    ensures { IfOk result (λ inside. inside ≡ filter (part.is_inside columns.now) conds.now) }
{
    let mut inside = Items::new(alloc);
    for conjunct in conds {
        if is_inside(columns, conjunct) {
            inside.push(conjunct.try_copy(alloc)?)?;
        }
    }
    Ok(inside)
}

/// For each conjunct, whether it lies inside some columns.
pub fn inside_flags(
    alloc: Global,
    columns: &[(ColId, Kind)],
    conds: &[Cond],
) -> Result<Items<bool>, NoMemory>
    ensures { IfOk result (λ flags. flags ≡ map (part.is_inside columns.now) conds.now) }
{
    let mut flags = Items::new(alloc);
    for conjunct in conds {
        flags.push(is_inside(columns, conjunct))?;
    }
    Ok(flags)
}
