//! The schema of partial rows.

ghost use Rattle.std.specs.Prelude.{◌≡◌, ◌++◌, map, IfOk, OnOk};
ghost use Rattle.pdw_algebra.specs.Shape as shape;
ghost use Rattle.pdw_groups.specs.Columns as spec;

use pdw_algebra::{aggregate_kind, kind_at, schema_over};
use pdw_base::{ColId, Kind, NoMemory, Schema};
use pdw_expr::{Agg, AggKind};
use std::alloc::Global;

fn kind_or_int(kind: Option<Kind>) -> Kind
    ensures { result ≡ shape.kind_or_int kind }
{
    kind.unwrap_or(Kind::Int)
}

// Counts and sums are kept as wide numbers.
fn partial_kind(kind: AggKind, last: Kind) -> Kind
    ensures { result ≡ spec.partial_kind kind last }
{
    match kind {
        AggKind::CountStar | AggKind::Count | AggKind::Sum => Kind::Wide,
        AggKind::Min | AggKind::Max => last,
    }
}

fn add_key_columns(
    columns: &mut Vec<(ColId, Kind)>,
    keys: &[ColId],
    input: &[(ColId, Kind)],
) -> Result<(), NoMemory>
    ensures { OnOk result (columns.new.items ≡ columns.old.items ++ map (shape.key_column input.now) keys.now) }
{
    for key in keys {
        columns.push((*key, kind_or_int(kind_at(input, *key))))?;
    }
    Ok(())
}

fn partial_column(input: &[(ColId, Kind)], agg: &Agg) -> (ColId, Kind)
    ensures { result ≡ spec.partial_column input.now agg.now }
{
    let last = kind_or_int(aggregate_kind(input, agg));
    (agg.out, partial_kind(agg.kind, last))
}

fn add_partial_columns(
    columns: &mut Vec<(ColId, Kind)>,
    aggs: &[Agg],
    input: &[(ColId, Kind)],
) -> Result<(), NoMemory>
    ensures { OnOk result (columns.new.items ≡ columns.old.items ++ map (spec.partial_column input.now) aggs.now) }
{
    for agg in aggs {
        columns.push(partial_column(input, agg))?;
    }
    Ok(())
}

/// The schema of the partial rows of some columns: the keys, and for each aggregate what is kept of it.
pub fn partial_schema(
    alloc: Global,
    keys: &[ColId],
    aggs: &[Agg],
    input: &[(ColId, Kind)],
) -> Result<Schema, NoMemory>
    ensures { IfOk result (λ schema. schema ≡ spec.partial_schema keys.now aggs.now input.now) }
{
    let mut columns = Vec::new(alloc);
    add_key_columns(&mut columns, keys, input)?;
    add_partial_columns(&mut columns, aggs, input)?;
    schema_over(alloc, columns.as_slice())
}
