//! What a column reference means.

ghost use Rattle.std.specs.Prelude.{◌≡◌, IfOk};
ghost use Rattle.std.specs.List.{find};
ghost use Rattle.std.specs.Option.{option_copied};
ghost use Rattle.pdw_semantics.specs.Environment as spec;
ghost use Rattle.pdw_semantics.specs.Environment.{environment, group_of};

use crate::scope::{Cell, Scope, scopes_from};
use pdw_base::{NoMemory, Str, Value};
use pdw_syntax::ColRef;
use sqlite_items::Items as ListOf;
use std::alloc::Global;

fn has_alias(alias: &Option<Str>, cell: &Cell) -> bool
    ensures { result ≡ spec.has_alias alias.now cell.now }
{
    match alias {
        Some(alias) => *alias == cell.alias,
        None => true,
    }
}

fn fits(reference: &ColRef, cell: &Cell) -> bool
    ensures { result ≡ spec.fits reference.now cell.now }
{
    reference.column == cell.column && has_alias(&reference.alias, cell)
}

// The first value that the reference fits.
fn match_in<'a>(reference: &ColRef, cells: &'a [Cell]) -> Option<&'a Cell>
    ensures { option_copied result ≡ find (spec.fits reference.now) cells.now }
{
    cells.iter().find(|cell| fits(reference, cell))
}

// The value in the first scope that has a match.
fn looked_up_in(alloc: Global, reference: &ColRef, scopes: &[Scope]) -> Result<Value, NoMemory>
    ensures { IfOk result (λ value. value ≡ spec.looked_up reference.now scopes.now) }
{
    for scope in scopes {
        if let Some(cell) = match_in(reference, scope.as_slice()) {
            return cell.value.try_copy(alloc);
        }
    }
    Ok(Value::Null)
}

/// The first of some rows.
pub fn first_row(rows: &[Scope]) -> &[Cell]
    ensures { result.now ≡ spec.first_row rows.now }
{
    match rows {
        [first, ..] => first.as_slice(),
        [] => &[],
    }
}

/// The value of a reference over a group, and what encloses it: SQL-92, 6.4.
pub fn looked_up(
    alloc: Global,
    reference: &ColRef,
    rows: &[Scope],
    outers: &[Scope],
) -> Result<Value, NoMemory>
    ensures { IfOk result (λ value. value ≡ spec.looked_up reference.now (environment (group_of rows.now outers.now))) }
{
    match match_in(reference, first_row(rows)) {
        Some(cell) => cell.value.try_copy(alloc),
        None => looked_up_in(alloc, reference, outers),
    }
}

/// The scopes that a subquery sees.
pub fn environment_of(
    alloc: Global,
    rows: &[Scope],
    outers: &[Scope],
) -> Result<ListOf<Scope>, NoMemory>
    ensures { IfOk result (λ scopes. scopes ≡ environment (group_of rows.now outers.now)) }
{
    scopes_from(alloc, first_row(rows), outers)
}
