//! GROUP BY, HAVING and the end of a query: SQL-92, 7.7 to 7.9.

ghost use Rattle.std.specs.Prelude.{◌≡◌, ◌≤◌, [], length, map, IfOk, OnOk};
ghost use Rattle.std.specs.Option.{option_copied};
ghost use Rattle.pdw_walk.specs.Conds.{tested as tested_walk};
ghost use Rattle.pdw_walk.specs.Conjuncts as conjunct;
ghost use Rattle.pdw_walk.specs.Items as item;
ghost use Rattle.pdw_walk.specs.Queries as spec;
ghost use Rattle.pdw_walk.specs.Queries.{text};
ghost use Rattle.pdw_walk.specs.Froms.{finished};
ghost use Rattle.pdw_walk.specs.Walk.{Gives, Walks, with_aggs};

use crate::froms::all_finished;
use crate::select_list::{items, repeated_name};
use pdw_base::ColId;
use pdw_expr::{Agg, Cond};
use pdw_form::{JFrom, JGroup, JudgedQuery};
use pdw_resolve::{Place, Walk, column, tested};
use pdw_syntax::{ColRef, Query};
use pdw_walk::{Column, Conjuncts, Draft, Entry, JudgeFault, Met, Outputs, Role, Slot, Walked};
use sqlite_items::Items as ListOf;
use std::alloc::{AllocError, Global};
use std::mem::drop;

/// A query whose FROM was walked.
#[derive(Drop)]
pub struct Frame<'a> {
    pub query: &'a Query,
    pub role: Role,
    /// The columns of the enclosing queries, the innermost first.
    pub outers: &'a [ListOf<Entry>],
    /// The columns of its own FROM.
    pub own: &'a [Entry],
    pub is_grouped: bool,
}

/// The parts of a query that were walked before its items.
#[derive(Drop)]
pub struct Parts {
    pub drafts: Vec<Draft>,
    pub filters: Conjuncts,
    pub keys: ListOf<Met>,
    pub having: ListOf<Cond>,
}

fn key_slots(alloc: Global, keys: &[Met]) -> Result<ListOf<Slot>, AllocError>
    ensures { IfOk result (λ slots. slots ≡ map (λ met. met.column.slot) keys.now) }
{
    let mut slots = ListOf::new(alloc);
    for key in keys {
        slots.push(key.column.slot)?;
    }
    Ok(slots)
}

fn key_numbers(alloc: Global, keys: &[Met]) -> Result<ListOf<ColId>, AllocError>
    ensures { IfOk result (λ numbers. numbers ≡ map (λ met. met.column.number) keys.now) }
{
    let mut numbers = ListOf::new(alloc);
    for key in keys {
        numbers.push(key.column.number)?;
    }
    Ok(numbers)
}

// The grouping columns, where the query is grouped.
fn keys_if(
    alloc: Global,
    is_grouped: bool,
    keys: &[Met],
) -> Result<Option<ListOf<Slot>>, AllocError>
    ensures { IfOk result (λ slots. slots ≡ spec.keys_if is_grouped keys.now) }
{
    if is_grouped {
        return Ok(Some(key_slots(alloc, keys)?));
    }
    Ok(None)
}

fn group_of(
    alloc: Global,
    is_grouped: bool,
    keys: &[Met],
    aggs: ListOf<Agg>,
    having: ListOf<Cond>,
) -> Result<Option<JGroup>, AllocError>
    ensures { IfOk result (λ group. group ≡ spec.group_of is_grouped keys.now aggs having) }
{
    if is_grouped {
        return Ok(Some(JGroup {
            keys: key_numbers(alloc, keys)?,
            aggs,
            having,
        }));
    }
    Ok(None)
}

fn walked_query(
    distinct: bool,
    from: ListOf<JFrom>,
    filters: Conjuncts,
    group: Option<JGroup>,
    outputs: Outputs,
) -> Walked
    ensures { result ≡ spec.walked_query distinct from filters group outputs }
{
    Walked {
        query: JudgedQuery {
            from,
            plain: filters.plain,
            outer: filters.outer,
            subs: filters.subs,
            group,
            items: outputs.items,
            distinct,
        },
        outputs: outputs.columns,
    }
}

// FROM and the grouping, when all used columns and aggregates are known.
fn from_and_group(
    alloc: Global,
    walk: &mut Walk,
    is_grouped: bool,
    drafts: Vec<Draft>,
    keys: &[Met],
    having: ListOf<Cond>,
) -> Result<(ListOf<JFrom>, Option<JGroup>), AllocError>
    ensures from { IfOk result (λ made. made.0 ≡ map (finished walk.old.numbers) drafts.items) }
    ensures group { IfOk result (λ made. made.1 ≡ spec.group_of is_grouped keys.now walk.old.aggs having) }
    ensures walk { OnOk result (walk.new ≡ with_aggs [] walk.old) }
{
    let from = all_finished(alloc, walk.numbers(), drafts)?;
    let aggs = walk.take_aggs(alloc);
    let group = group_of(alloc, is_grouped, keys, aggs, having)?;
    Ok((from, group))
}

#[tactic(auto, unfolding(pdw_walk::specs::Queries::finish))]
fn finish(
    alloc: Global,
    walk: &mut Walk,
    distinct: bool,
    is_grouped: bool,
    parts: Parts,
    outputs: Outputs,
) -> Result<Walked, JudgeFault>
    ensures { Walks (spec.finish distinct is_grouped parts.drafts.items parts.filters parts.keys parts.having outputs walk.old) result walk.new }
{
    let Parts {
        drafts,
        filters,
        keys,
        having,
    } = parts;
    match from_and_group(alloc, walk, is_grouped, drafts, keys.as_slice(), having) {
        Ok((from, group)) => Ok(walked_query(distinct, from, filters, group, outputs)),
        Err(_) => {
            drop(filters);
            drop(outputs);
            Err(JudgeFault::Memory)
        }
    }
}

// Refuses output names that repeat where they have to differ.
fn names_differ(alloc: Global, role: Role, columns: &[Column]) -> Result<(), JudgeFault>
    ensures { Gives (item.refuse_repeated (item.repeated_name role columns.now)) result }
{
    match repeated_name(alloc, role, columns)? {
        Some(name) => Err(JudgeFault::DuplicateName(name)),
        None => Ok(()),
    }
}

#[tactic(auto, unfolding(pdw_walk::specs::Queries::after_items))]
fn after_items(
    alloc: Global,
    walk: &mut Walk,
    frame: &Frame<'_>,
    parts: Parts,
    outputs: Outputs,
) -> Result<Walked, JudgeFault>
    ensures { Walks (spec.after_items (text frame.now.query.now) frame.now.role frame.now.outers.now frame.now.own.now frame.now.is_grouped parts.drafts.items parts.filters parts.keys parts.having outputs walk.old) result walk.new }
{
    match names_differ(alloc, frame.role, outputs.columns.as_slice()) {
        Ok(()) => finish(
            alloc,
            walk,
            frame.query.distinct,
            frame.is_grouped,
            parts,
            outputs,
        ),
        Err(fault) => {
            drop(parts);
            drop(outputs);
            Err(fault)
        }
    }
}

fn slots_of(slots: &Option<ListOf<Slot>>) -> Option<&[Slot]>
    ensures { option_copied result ≡ slots.now }
{
    match slots {
        Some(slots) => Some(slots.as_slice()),
        None => None,
    }
}

// The output columns, in the place of these grouping columns.
fn items_at<'a>(
    alloc: Global,
    walk: &mut Walk,
    frame: &'a Frame<'a>,
    keys: Option<&'a [Slot]>,
) -> Result<Outputs, JudgeFault>
    ensures { Walks (item.items_walk frame.now.role (spec.group_place frame.now.outers.now frame.now.own.now (option_copied keys.entry)) (text frame.now.query.now).items walk.old) result walk.new }
{
    let place = Place {
        own: frame.own,
        outers: frame.outers,
        reaches: false,
        keys,
    };
    items(alloc, walk, frame.role, &place, &frame.query.items)
}

// The conjuncts of HAVING, in the place of these grouping columns.
fn having_at<'a>(
    alloc: Global,
    walk: &mut Walk,
    frame: &'a Frame<'a>,
    keys: Option<&'a [Slot]>,
) -> Result<ListOf<Cond>, JudgeFault>
    ensures { Walks (tested_walk (spec.group_place frame.now.outers.now frame.now.own.now (option_copied keys.entry)) (text frame.now.query.now).having walk.old) result walk.new }
{
    let place = Place {
        own: frame.own,
        outers: frame.outers,
        reaches: false,
        keys,
    };
    tested(alloc, walk, &place, &frame.query.having)
}

fn grouped_items(
    alloc: Global,
    walk: &mut Walk,
    frame: &Frame<'_>,
    keys: &[Met],
) -> Result<Outputs, JudgeFault>
    ensures { Walks (item.items_walk frame.now.role (spec.group_place frame.now.outers.now frame.now.own.now (spec.keys_if frame.now.is_grouped keys.now)) (text frame.now.query.now).items walk.old) result walk.new }
{
    let slots = keys_if(alloc, frame.is_grouped, keys)?;
    items_at(alloc, walk, frame, slots_of(&slots))
}

fn grouped_having(
    alloc: Global,
    walk: &mut Walk,
    frame: &Frame<'_>,
    keys: &[Met],
) -> Result<ListOf<Cond>, JudgeFault>
    ensures { Walks (tested_walk (spec.group_place frame.now.outers.now frame.now.own.now (spec.keys_if frame.now.is_grouped keys.now)) (text frame.now.query.now).having walk.old) result walk.new }
{
    let slots = keys_if(alloc, frame.is_grouped, keys)?;
    having_at(alloc, walk, frame, slots_of(&slots))
}

#[tactic(auto, unfolding(pdw_walk::specs::Queries::after_having))]
fn after_having(
    alloc: Global,
    walk: &mut Walk,
    frame: &Frame<'_>,
    parts: Parts,
) -> Result<Walked, JudgeFault>
    ensures { Walks (spec.after_having (text frame.now.query.now) frame.now.role frame.now.outers.now frame.now.own.now frame.now.is_grouped parts.drafts.items parts.filters parts.keys parts.having walk.old) result walk.new }
{
    match grouped_items(alloc, walk, frame, parts.keys.as_slice()) {
        Ok(outputs) => after_items(alloc, walk, frame, parts, outputs),
        Err(fault) => {
            drop(parts);
            Err(fault)
        }
    }
}

#[tactic(auto, unfolding(pdw_walk::specs::Queries::after_keys))]
fn after_keys(
    alloc: Global,
    walk: &mut Walk,
    frame: &Frame<'_>,
    drafts: Vec<Draft>,
    filters: Conjuncts,
    keys: ListOf<Met>,
) -> Result<Walked, JudgeFault>
    ensures { Walks (spec.after_keys (text frame.now.query.now) frame.now.role frame.now.outers.now frame.now.own.now frame.now.is_grouped drafts.items filters keys walk.old) result walk.new }
{
    let having = grouped_having(alloc, walk, frame, keys.as_slice())?;
    let parts = Parts {
        drafts,
        filters,
        keys,
        having,
    };
    after_having(alloc, walk, frame, parts)
}

#[tactic(auto, using(pdw_resolve::proofs::Turns::turns), unfolding(pdw_walk::specs::Queries::keys_walk))]
fn keys(
    alloc: Global,
    walk: &mut Walk,
    place: &Place<'_>,
    references: &[ColRef],
) -> Result<ListOf<Met>, JudgeFault>
    ensures { Walks (spec.keys_walk place.now references.now walk.old) result walk.new }
{
    let mut found = ListOf::new(alloc);
    for reference in references {
        found.push(column(alloc, walk, place, reference)?)?;
    }
    Ok(found)
}

// The grouping columns.
fn grouping(alloc: Global, walk: &mut Walk, frame: &Frame<'_>) -> Result<ListOf<Met>, JudgeFault>
    ensures { Walks (spec.keys_walk (conjunct.place_in frame.now.outers.now frame.now.own.now) (text frame.now.query.now).group walk.old) result walk.new }
{
    let place = Place {
        own: frame.own,
        outers: frame.outers,
        reaches: false,
        keys: None,
    };
    keys(alloc, walk, &place, frame.query.group.as_slice())
}

/// A query from GROUP BY on.
#[tactic(auto, unfolding(pdw_walk::specs::Queries::after_where))]
pub fn after_where(
    alloc: Global,
    walk: &mut Walk,
    frame: &Frame<'_>,
    drafts: Vec<Draft>,
    filters: Conjuncts,
) -> Result<Walked, JudgeFault>
    ensures { Walks (spec.after_where (text frame.now.query.now) frame.now.role frame.now.outers.now frame.now.own.now frame.now.is_grouped drafts.items filters walk.old) result walk.new }
{
    let found = grouping(alloc, walk, frame)?;
    after_keys(alloc, walk, frame, drafts, filters, found)
}
