//! FROM: SQL-92, 6.3 and 7.5.

ghost use Rattle.std.specs.Prelude.{◌≡◌, [], ◌∷◌, ◌++◌, ◌≤◌, length, map, IfOk};
ghost use Rattle.std.specs.List.{enumerate_from};
ghost use Rattle.std.specs.Option.{option_map};
ghost use Rattle.pdw_catalog.specs.Catalog.{table_named};
ghost use Rattle.pdw_walk.specs.Conds.{tested as tested_spec};
ghost use Rattle.pdw_walk.specs.Froms as spec;
ghost use Rattle.pdw_walk.specs.Queries.{condition};
ghost use Rattle.pdw_walk.specs.Walk.{Walks, and_then, pure, take_alias};
ghost use Rattle.pdw_walk.specs.declared.fault.TheConstants.{MOST_USED};

use pdw_base::{ColId, NoMemory, Str};
use pdw_catalog::{Catalog, Column as TableColumn};
use pdw_expr::Cond;
use pdw_form::JFrom;
use pdw_resolve::{Place, Walk, tested};
use pdw_syntax::{JoinWord, SqlCond};
use pdw_walk::{Column, Draft, Element, Entry, JudgeFault, Slot, Walked};
use sqlite_items::{Boxed, Items as ListOf};
use std::alloc::{AllocError, Global};
use std::marker::Model;
use std::mem::drop;

/// What the elements of FROM give together.
#[derive(Drop)]
pub struct Sources {
    pub own: ListOf<Entry>,
    pub drafts: Vec<Draft>,
}

impl Model for Sources {
    ghost use Rattle.pdw_walk.specs.Froms.{Sources as Together};
    ghost use Rattle.std.specs.Coded.{codes};
    ghost use Rattle.pdw_walk.specs.contracts.entry.Draft.{the_row};

    ghost Value = { Together };

    ghost coded = { Prim.hlevel (codes, the_row.coded) };

    ghost view = { λ s. record { own = s.own; drafts = s.drafts.items } };
}

// A place in a list, as it is kept.
fn kept_place(place: usize) -> Result<u32, NoMemory>
    ensures { IfOk result (λ kept. kept ≡ place) }
{
    match u32::try_from(place) {
        Ok(kept) => Ok(kept),
        Err(_) => Err(NoMemory),
    }
}

// A column of a table, by its place in the table from 0.
fn table_entry(
    alloc: Global,
    alias: &Str,
    reference: u32,
    place: usize,
    column: &TableColumn,
) -> Result<Entry, NoMemory>
    ensures { IfOk result (λ entry. entry ≡ spec.table_entry alias.now reference (place, column.now)) }
{
    Ok(Entry {
        alias: alias.try_copy(alloc)?,
        column: column.name.try_copy(alloc)?,
        kind: column.kind,
        slot: Slot::Base {
            reference,
            column: kept_place(place)?,
        },
    })
}

fn table_entries(
    alloc: Global,
    alias: &Str,
    reference: u32,
    columns: &[TableColumn],
) -> Result<ListOf<Entry>, NoMemory>
    ensures { IfOk result (λ entries. entries ≡ spec.table_entries alias.now reference columns.now) }
{
    let mut entries = ListOf::new(alloc);
    for column in columns {
        let place = entries.len();
        entries.push(table_entry(alloc, alias, reference, place, column)?)?;
    }
    Ok(entries)
}

fn table_element(
    alloc: Global,
    name: &Str,
    alias: &Str,
    reference: u32,
    columns: &[TableColumn],
) -> Result<Element, NoMemory>
    ensures { IfOk result (λ element. element ≡ spec.table_element name.now alias.now columns.now reference) }
{
    let entries = table_entries(alloc, alias, reference, columns)?;
    Ok(Element {
        draft: Draft::Table {
            table: name.try_copy(alloc)?,
            alias: alias.try_copy(alloc)?,
            reference,
        },
        entries,
    })
}

#[tactic(auto, unfolding(pdw_walk::specs::Froms::known_table_walk))]
fn known_table(
    alloc: Global,
    walk: &mut Walk,
    name: &Str,
    alias: &Str,
    columns: &[TableColumn],
) -> Result<Element, JudgeFault>
    ensures { Walks (spec.known_table_walk name.now alias.now columns.now walk.old) result walk.new }
{
    let reference = walk.count_reference()?;
    walk.take_alias(alloc, alias)?;
    Ok(table_element(alloc, name, alias, reference, columns)?)
}

fn table(
    alloc: Global,
    catalog: &Catalog,
    walk: &mut Walk,
    name: &Str,
    alias: &Str,
) -> Result<Element, JudgeFault>
    ensures { Walks (spec.table_walk name.now alias.now (table_named name.now catalog.now) walk.old) result walk.new }
{
    match catalog.table(name) {
        Some(found) => known_table(alloc, walk, name, alias, found.columns.as_slice()),
        None => Err(JudgeFault::UnknownTable(name.try_copy(alloc)?)),
    }
}

/// A table, with its name as alias where none is written.
pub fn named(
    alloc: Global,
    catalog: &Catalog,
    walk: &mut Walk,
    name: &Str,
    alias: &Option<Str>,
) -> Result<Element, JudgeFault>
    ensures { Walks (spec.table_walk name.now (spec.called name.now alias.now) (table_named name.now catalog.now) walk.old) result walk.new }
{
    match alias {
        Some(alias) => table(alloc, catalog, walk, name, alias),
        None => table(alloc, catalog, walk, name, name),
    }
}

fn derived_entry(alloc: Global, alias: &Str, output: &Column) -> Result<Entry, NoMemory>
    ensures { IfOk result (λ entry. entry ≡ spec.derived_entry alias.now output.now) }
{
    Ok(Entry {
        alias: alias.try_copy(alloc)?,
        column: output.name.try_copy(alloc)?,
        kind: output.kind,
        slot: output.slot,
    })
}

fn derived_entries(
    alloc: Global,
    alias: &Str,
    outputs: &[Column],
) -> Result<ListOf<Entry>, NoMemory>
    ensures { IfOk result (λ entries. entries ≡ map (spec.derived_entry alias.now) outputs.now) }
{
    let mut entries = ListOf::new(alloc);
    for output in outputs {
        entries.push(derived_entry(alloc, alias, output)?)?;
    }
    Ok(entries)
}

// The columns of a derived table, whose alias is taken.
fn derived_scope(
    alloc: Global,
    walk: &mut Walk,
    alias: &Str,
    outputs: &[Column],
) -> Result<ListOf<Entry>, JudgeFault>
    ensures { Walks (and_then (take_alias alias.now walk.old) (λ _. pure (map (spec.derived_entry alias.now) outputs.now))) result walk.new }
{
    walk.take_alias(alloc, alias)?;
    Ok(derived_entries(alloc, alias, outputs)?)
}

/// A derived table, when its query was walked.
#[tactic(auto, unfolding(pdw_walk::specs::Froms::derived_walk))]
pub fn derived(
    alloc: Global,
    walk: &mut Walk,
    alias: &Str,
    walked: Walked,
) -> Result<Element, JudgeFault>
    ensures { Walks (spec.derived_walk alias.now walked walk.old) result walk.new }
{
    match derived_scope(alloc, walk, alias, walked.outputs.as_slice()) {
        Ok(entries) => Ok(Element {
            draft: Draft::Derived(walked.query),
            entries,
        }),
        Err(fault) => {
            drop(walked);
            Err(fault)
        }
    }
}

// The condition of ON, which sees the columns of the join's two sides.
fn on_conjuncts<'a>(
    alloc: Global,
    walk: &mut Walk,
    outers: &'a [ListOf<Entry>],
    own: &'a [Entry],
    on: &Option<SqlCond>,
) -> Result<ListOf<Cond>, JudgeFault>
    ensures { Walks (tested_spec (spec.on_place outers.now own.now) (option_map condition on.now) walk.old) result walk.new }
{
    let place = Place {
        own,
        outers,
        reaches: false,
        keys: None,
    };
    tested(alloc, walk, &place, on)
}

// Both sides of a join, each in a box.
fn both_sides(
    alloc: Global,
    left: Draft,
    right: Draft,
) -> Result<(Boxed<Draft>, Boxed<Draft>), NoMemory>
    ensures { IfOk result (λ sides. (sides.0 ≡ left) × (sides.1 ≡ right)) }
{
    match Boxed::new(alloc, left) {
        Ok(left) => Ok((left, Boxed::new(alloc, right)?)),
        Err(_) => {
            drop(right);
            Err(NoMemory)
        }
    }
}

/// A join, when its two sides were walked.
#[tactic(auto, unfolding(pdw_walk::specs::Froms::joined_walk))]
pub fn joined(
    alloc: Global,
    walk: &mut Walk,
    outers: &[ListOf<Entry>],
    word: JoinWord,
    on: &Option<SqlCond>,
    left: Element,
    right: Element,
) -> Result<Element, JudgeFault>
    ensures { Walks (spec.joined_walk outers.now word (option_map condition on.now) left right walk.old) result walk.new }
{
    let mut entries = left.entries;
    let more = right.entries;
    let (left, right) = both_sides(alloc, left.draft, right.draft)?;
    entries.append(more)?;
    let on = on_conjuncts(alloc, walk, outers, entries.as_slice(), on)?;
    let draft = Draft::Join {
        word,
        left,
        right,
        on,
    };
    Ok(Element { draft, entries })
}

/// No element.
pub fn no_sources(alloc: Global) -> Sources
    ensures { result ≡ spec.no_sources }
{
    Sources {
        own: ListOf::new(alloc),
        drafts: Vec::new(alloc),
    }
}

/// The columns and the draft of an element after those before it.
pub fn with_element(before: Sources, element: Element) -> Result<Sources, AllocError>
    ensures { IfOk result (λ more. more ≡ spec.with_element before element) }
{
    let Sources {
        mut own,
        mut drafts,
    } = before;
    drafts.push(element.draft)?;
    own.append(element.entries)?;
    Ok(Sources { own, drafts })
}

// The column of this reference that a number stands for, after those before it.
fn with_used(
    before: ListOf<(ColId, u32)>,
    number: u16,
    slot: Slot,
    reference: u32,
) -> Result<ListOf<(ColId, u32)>, AllocError>
    ensures { IfOk result (λ more. more ≡ before ++ spec.used_at reference (number, slot)) }
{
    let mut columns = before;
    if let Slot::Base {
        reference: other,
        column,
    } = slot
    {
        if other == reference {
            columns.push((ColId(number), column))?;
        }
    }
    Ok(columns)
}

// The columns of a reference that are used, by rising numbers.
fn used_columns(
    alloc: Global,
    numbers: &[Slot],
    reference: u32,
) -> Result<ListOf<(ColId, u32)>, AllocError>
    requires { length numbers.now ≤ MOST_USED }
    ensures { IfOk result (λ columns. columns ≡ spec.used_columns numbers.now reference) }
{
    let mut columns = ListOf::new(alloc);
    for number in 0..numbers.len() {
        columns = with_used(columns, number as u16, numbers[number], reference)?;
    }
    Ok(columns)
}

/// An element of FROM, when all used columns are known.
#[cycle(finished)]
pub fn finished(alloc: Global, numbers: &[Slot], draft: Draft) -> Result<JFrom, AllocError>
    requires { length numbers.now ≤ MOST_USED }
    ensures { IfOk result (λ from. from ≡ spec.finished numbers.now draft) }
{
    match draft {
        Draft::Table {
            table,
            alias,
            reference,
        } => Ok(JFrom::Table {
            table,
            alias,
            cols: used_columns(alloc, numbers, reference)?,
        }),
        Draft::Derived(query) => Ok(JFrom::Derived(Boxed::new(alloc, query)?)),
        Draft::Join {
            word,
            left,
            right,
            on,
        } => {
            let left = Boxed::new(alloc, finished(alloc, numbers, left.into_inner())?)?;
            let right = Boxed::new(alloc, finished(alloc, numbers, right.into_inner())?)?;
            Ok(JFrom::Join {
                word,
                left,
                right,
                on,
            })
        }
    }
}

/// The elements of FROM, when all used columns are known.
pub fn all_finished(
    alloc: Global,
    numbers: &[Slot],
    drafts: Vec<Draft>,
) -> Result<ListOf<JFrom>, AllocError>
    requires { length numbers.now ≤ MOST_USED }
    ensures { IfOk result (λ from. from ≡ map (spec.finished numbers.now) drafts.items) }
{
    let mut from = ListOf::new(alloc);
    for draft in drafts {
        from.push(finished(alloc, numbers, draft)?)?;
    }
    Ok(from)
}
