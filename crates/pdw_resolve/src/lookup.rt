//! Column references: SQL-92, 6.4.

ghost use Rattle.std.specs.Prelude.{◌≡◌, IfOk};
ghost use Rattle.std.specs.Option.{option_copied};
ghost use Rattle.pdw_walk.specs.Lookup as spec;
ghost use Rattle.pdw_resolve.specs.Matches.{and_one, seen};
ghost use Rattle.pdw_walk.specs.Walk.{Walks};

use crate::place::Place;
use crate::text::text_from;
use crate::walk::Walk;
use pdw_base::{NoMemory, Str};
use pdw_syntax::ColRef;
use pdw_walk::{Entry, JudgeFault, Met, Numbered, Slot};
use sqlite_items::Items as ListOf;
use std::alloc::Global;

/// A name, after its alias and a dot where that is written.
pub fn qualified(alloc: Global, alias: Option<&Str>, column: &Str) -> Result<Str, NoMemory>
    ensures { IfOk result (λ name. name ≡ spec.qualified (option_copied alias.entry) column.now) }
{
    match alias {
        Some(alias) => {
            let name = format!(in alloc; "{}.{}", alias.text(), column.text())?;
            text_from(alloc, name.as_str())
        }
        None => column.try_copy(alloc),
    }
}

// The name of a reference as it is written.
fn written(alloc: Global, reference: &ColRef) -> Result<Str, NoMemory>
    ensures { IfOk result (λ name. name ≡ spec.written reference.now) }
{
    qualified(alloc, reference.alias.as_ref(), &reference.column)
}

// Whether a reference fits a column.
fn fits(reference: &ColRef, entry: &Entry) -> bool
    ensures { result ≡ spec.fits reference.now entry.now }
{
    let is_of_alias = match &reference.alias {
        Some(alias) => *alias == entry.alias,
        None => true,
    };
    reference.column == entry.column && is_of_alias
}

// The columns of a scope that a reference fits: none, the one, or several.
#[derive(Clone, Copy)]
enum Found<'a> {
    None,
    One(&'a Entry),
    Several,
}

impl<'a> Found<'a> {
    // With one more that fits.
    fn and(self, entry: &'a Entry) -> Found<'a>
        ensures { seen result ≡ and_one (seen self.entry) entry.now }
    {
        match self {
            Found::None => Found::One(entry),
            _ => Found::Several,
        }
    }
}

// The columns of a scope that a reference fits.
#[tactic(auto, using(crate::proofs::Matches::fitting))]
fn matches<'a>(reference: &ColRef, scope: &'a [Entry]) -> Found<'a>
    ensures { seen result ≡ spec.matches reference.now scope.now }
{
    let mut found = Found::None;
    for entry in scope {
        if fits(reference, entry) {
            found = found.and(entry);
        }
    }
    found
}

// Why no column is meant that is two scopes out or further.
fn far_fault(
    alloc: Global,
    reference: &ColRef,
    scopes: &[ListOf<Entry>],
) -> Result<JudgeFault, NoMemory>
    ensures { IfOk result (λ fault. fault ≡ spec.far_fault reference.now scopes.now) }
{
    let name = written(alloc, reference)?;
    for scope in scopes {
        match matches(reference, scope.as_slice()) {
            Found::None => {}
            Found::One(_) => return Ok(JudgeFault::OuterReference(name)),
            Found::Several => return Ok(JudgeFault::Ambiguous(name)),
        }
    }
    Ok(JudgeFault::UnknownColumn(name))
}

// A column is used, which gets its number.
#[tactic(auto, unfolding(pdw_walk::specs::Lookup::use_column))]
fn use_column(walk: &mut Walk, entry: &Entry) -> Result<Met, JudgeFault>
    ensures { Walks (spec.use_column entry.now walk.old) result walk.new }
{
    let number = walk.number_of(entry.slot)?;
    Ok(Met {
        kind: entry.kind,
        column: Numbered {
            number,
            slot: entry.slot,
        },
    })
}

// A column one scope out.
fn reached(
    alloc: Global,
    walk: &mut Walk,
    reaches: bool,
    reference: &ColRef,
    entry: &Entry,
) -> Result<Met, JudgeFault>
    ensures { Walks (spec.reached reaches reference.now entry.now walk.old) result walk.new }
{
    if !reaches {
        return Err(JudgeFault::OuterReference(written(alloc, reference)?));
    }
    walk.meet_outer();
    use_column(walk, entry)
}

// The column of an enclosing query that a reference means.
fn near_column(
    alloc: Global,
    walk: &mut Walk,
    reaches: bool,
    reference: &ColRef,
    scopes: &[ListOf<Entry>],
) -> Result<Met, JudgeFault>
    ensures { Walks (spec.near_column reaches reference.now scopes.now walk.old) result walk.new }
{
    let Some((scope, further)) = scopes.split_first() else {
        return Err(JudgeFault::UnknownColumn(written(alloc, reference)?));
    };
    match matches(reference, scope.as_slice()) {
        Found::None => Err(far_fault(alloc, reference, further)?),
        Found::One(entry) => reached(alloc, walk, reaches, reference, entry),
        Found::Several => Err(JudgeFault::Ambiguous(written(alloc, reference)?)),
    }
}

// Whether this is a grouping column.
fn is_key(keys: &[Slot], slot: Slot) -> bool
    ensures { result ≡ spec.is_key keys.now slot }
{
    keys.iter().any(|key| *key == slot)
}

/// A column of the query's own FROM, which has to be a grouping column where there are such. The name is for a fault.
pub fn own_column(
    alloc: Global,
    walk: &mut Walk,
    keys: Option<&[Slot]>,
    alias: Option<&Str>,
    column: &Str,
    entry: &Entry,
) -> Result<Met, JudgeFault>
    ensures { Walks (spec.own_column (option_copied keys.entry) (spec.qualified (option_copied alias.entry) column.now) entry.now walk.old) result walk.new }
{
    if let Some(keys) = keys {
        if !is_key(keys, entry.slot) {
            return Err(JudgeFault::NotGrouped(qualified(alloc, alias, column)?));
        }
    }
    use_column(walk, entry)
}

/// The column that a reference means.
#[tactic(auto, unfolding(pdw_walk::specs::Lookup::column))]
pub fn column(
    alloc: Global,
    walk: &mut Walk,
    place: &Place<'_>,
    reference: &ColRef,
) -> Result<Met, JudgeFault>
    ensures { Walks (spec.column place.now reference.now walk.old) result walk.new }
{
    match matches(reference, place.own) {
        Found::None => near_column(alloc, walk, place.reaches, reference, place.outers),
        Found::One(entry) => own_column(
            alloc,
            walk,
            place.keys,
            reference.alias.as_ref(),
            &reference.column,
            entry,
        ),
        Found::Several => Err(JudgeFault::Ambiguous(written(alloc, reference)?)),
    }
}
