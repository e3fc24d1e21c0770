//! Groups of the rows of a relation.

ghost use Rattle.std.specs.Prelude.{◌≡◌, ◌++◌, IfOk, map, true};
ghost use Rattle.pdw_agg.specs.Columns as agg_columns;
ghost use Rattle.pdw_algebra.specs.Shape as shape;
ghost use Rattle.pdw_exec.specs.Relation.{Fits, Gives, environments};
ghost use Rattle.pdw_exec.specs.Shapes.{can_finish, can_group, can_keep};
ghost use Rattle.pdw_expr.specs.Rows.{grouped};
ghost use Rattle.pdw_partial.specs.Partial.{final_rows, partial_rows};

use crate::relation::{Held, Relation};
use pdw_agg::{group, merge_final, partial};
use pdw_algebra::{aggregate_kind, kind_at, schema_over};
use pdw_base::{ColId, Kind, NoMemory, Schema};
use pdw_expr::{Agg, AggKind};
use std::alloc::Global;

// ---- columns

fn kind_or_int(kind: Option<Kind>) -> Kind
    ensures { result ≡ shape.kind_or_int kind }
{
    kind.unwrap_or(Kind::Int)
}

// Partial rows keep counts and sums as wide numbers.
fn partial_kind(kind: AggKind, whole: Kind) -> Kind
    ensures { result ≡ agg_columns.partial_kind kind whole }
{
    match kind {
        AggKind::CountStar | AggKind::Count | AggKind::Sum => Kind::Wide,
        AggKind::Min | AggKind::Max => whole,
    }
}

// Final counts and sums are numbers of 64 bits again.
fn final_kind(kind: AggKind, kept: Kind) -> Kind
    ensures { result ≡ agg_columns.final_kind kind kept }
{
    match kind {
        AggKind::CountStar | AggKind::Count | AggKind::Sum => Kind::Int,
        AggKind::Min | AggKind::Max => kept,
    }
}

fn key_columns(
    alloc: Global,
    keys: &[ColId],
    columns: &[(ColId, Kind)],
) -> Result<Vec<(ColId, Kind)>, NoMemory>
    ensures { IfOk result (λ made. made.items ≡ map (shape.key_column columns.now) keys.now) }
{
    let mut made = Vec::with_capacity(alloc, keys.len())?;
    for key in keys {
        made.push((*key, kind_or_int(kind_at(columns, *key))))?;
    }
    Ok(made)
}

fn grouped_columns(
    alloc: Global,
    keys: &[ColId],
    aggs: &[Agg],
    columns: &[(ColId, Kind)],
) -> Result<Schema, NoMemory>
    ensures { IfOk result (λ made. made ≡ agg_columns.grouped_schema keys.now aggs.now columns.now) }
{
    let mut made = key_columns(alloc, keys, columns)?;
    for agg in aggs {
        made.push((agg.out, kind_or_int(aggregate_kind(columns, agg))))?;
    }
    schema_over(alloc, made.as_slice())
}

fn partial_columns(
    alloc: Global,
    keys: &[ColId],
    aggs: &[Agg],
    columns: &[(ColId, Kind)],
) -> Result<Schema, NoMemory>
    ensures { IfOk result (λ made. made ≡ agg_columns.partial_schema keys.now aggs.now columns.now) }
{
    let mut made = key_columns(alloc, keys, columns)?;
    for agg in aggs {
        let whole = kind_or_int(aggregate_kind(columns, agg));
        made.push((agg.out, partial_kind(agg.kind, whole)))?;
    }
    schema_over(alloc, made.as_slice())
}

fn final_columns(
    alloc: Global,
    keys: &[ColId],
    aggs: &[Agg],
    columns: &[(ColId, Kind)],
) -> Result<Schema, NoMemory>
    ensures { IfOk result (λ made. made ≡ agg_columns.final_schema keys.now aggs.now columns.now) }
{
    let mut made = key_columns(alloc, keys, columns)?;
    for agg in aggs {
        let kept = kind_or_int(kind_at(columns, agg.out));
        made.push((agg.out, final_kind(agg.kind, kept)))?;
    }
    schema_over(alloc, made.as_slice())
}

// ---- rows

/// A row for each group of the rows: its keys and the values of its aggregates.
pub fn groups<'a>(
    alloc: Global,
    keys: &[ColId],
    aggs: &[Agg],
    child: &Relation<'a>,
) -> Result<Relation<'a>, NoMemory>
    ensures { IfOk result (Gives (agg_columns.grouped_schema keys.now aggs.now child.now.columns) (grouped keys.now aggs.now (environments child.now)) ((Fits child.now) × (can_group keys.now aggs.now child.now.columns ≡ true))) }
{
    let columns = grouped_columns(alloc, keys, aggs, child.columns.cols())?;
    let bag = group(alloc, child.rows.bag(), &child.columns, keys, aggs)?;
    Ok(Relation {
        columns,
        rows: Held::Made(bag),
    })
}

/// A row for each group of the rows: its keys and what its aggregates keep of these rows.
pub fn partial_groups<'a>(
    alloc: Global,
    keys: &[ColId],
    aggs: &[Agg],
    child: &Relation<'a>,
) -> Result<Relation<'a>, NoMemory>
    ensures { IfOk result (Gives (agg_columns.partial_schema keys.now aggs.now child.now.columns) (partial_rows keys.now aggs.now (environments child.now)) ((Fits child.now) × (can_keep keys.now aggs.now child.now.columns ≡ true))) }
{
    let columns = partial_columns(alloc, keys, aggs, child.columns.cols())?;
    let bag = partial(alloc, child.rows.bag(), &child.columns, keys, aggs)?;
    Ok(Relation {
        columns,
        rows: Held::Made(bag),
    })
}

/// A row for each group of partial rows: its keys and the values of its aggregates by what they kept.
pub fn final_groups<'a>(
    alloc: Global,
    keys: &[ColId],
    aggs: &[Agg],
    child: &Relation<'a>,
) -> Result<Relation<'a>, NoMemory>
    ensures { IfOk result (Gives (agg_columns.final_schema keys.now aggs.now child.now.columns) (final_rows keys.now aggs.now (environments child.now)) ((Fits child.now) × (can_finish keys.now aggs.now child.now.columns ≡ true))) }
{
    let columns = final_columns(alloc, keys, aggs, child.columns.cols())?;
    let bag = merge_final(alloc, child.rows.bag(), &child.columns, keys, aggs)?;
    Ok(Relation {
        columns,
        rows: Held::Made(bag),
    })
}
