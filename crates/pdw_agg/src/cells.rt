//! Cells of the row of a group.

ghost use Rattle.std.specs.Prelude.{◌≡◌, ◌==◌, IfOk, map};
ghost use Rattle.std.specs.List.{list_any};
ghost use Rattle.pdw_agg.specs.Stage as spec;
ghost use Rattle.pdw_base.specs.Schema.{cell, row_over};
ghost use Rattle.pdw_base.specs.Value.{owned};
ghost use Rattle.pdw_expr.specs.Env as env;
ghost use Rattle.pdw_expr.specs.Rows as operators;

use crate::running::{again, alone, finished, joined, nothing};
use crate::stage::Stage;
use pdw_base::{ColId, NoMemory, Row, Schema, ValueRef};
use pdw_expr::{Agg, Scalar, eval_scalar};
use pdw_keys::value_at;
use std::alloc::Global;

// The value of a column, NULL where the row has none.
fn column<'a>(c: ColId, s: &Schema, row: &'a Row) -> ValueRef<'a>
    ensures { owned result ≡ cell s.now row.now c }
{
    value_at(row.values(), s.place(c))
}

// The value of an aggregate's argument. COUNT of `*` has none: it counts rows.
fn argument<'a>(arg: &'a Option<Scalar>, s: &Schema, row: &'a Row) -> ValueRef<'a>
    ensures { owned result ≡ operators.argument arg.now (cell s.now row.now) }
{
    match arg {
        Some(e) => eval_scalar(e, s, row),
        None => ValueRef::Null,
    }
}

// What one row adds to an aggregate.
fn one_value<'a>(stage: Stage, agg: &'a Agg, s: &Schema, row: &'a Row) -> ValueRef<'a>
    ensures { owned result ≡ spec.one_value stage agg.now (cell s.now row.now) }
{
    match stage {
        Stage::Whole | Stage::Partial => alone(agg.kind, argument(&agg.arg, s, row)),
        Stage::Final => again(agg.kind, column(agg.out, s, row)),
    }
}

// What an aggregate keeps of the rows of a group.
fn kept_value<'a>(stage: Stage, agg: &'a Agg, s: &Schema, rows: &[&'a Row]) -> ValueRef<'a>
    ensures { owned result ≡ spec.kept_value stage agg.now (map (λ row. cell s.now row.now) rows.now) }
{
    let mut kept = nothing(agg.kind);
    for row in rows {
        kept = joined(agg.kind, kept, one_value(stage, agg, s, row));
    }
    kept
}

// The value of an aggregate over the rows of a group, as the stage makes it.
fn aggregate_value<'a>(stage: Stage, agg: &'a Agg, s: &Schema, rows: &[&'a Row]) -> ValueRef<'a>
    ensures { owned result ≡ spec.cell_value stage agg.now (map (λ row. cell s.now row.now) rows.now) }
{
    let kept = kept_value(stage, agg, s, rows);
    match stage {
        Stage::Whole | Stage::Final => finished(kept),
        Stage::Partial => kept,
    }
}

// The value of the aggregate that makes a column, NULL where none does.
fn aggregate_cell<'a>(
    stage: Stage,
    aggs: &'a [Agg],
    s: &Schema,
    rows: &[&'a Row],
    c: ColId,
) -> ValueRef<'a>
    ensures { owned result ≡ spec.value_cells stage aggs.now (map (λ row. cell s.now row.now) rows.now) c }
{
    for agg in aggs {
        if agg.out.0 == c.0 {
            return aggregate_value(stage, agg, s, rows);
        }
    }
    ValueRef::Null
}

fn is_key(keys: &[ColId], c: ColId) -> bool
    ensures { result ≡ list_any (λ key. key.0 == c.0) keys.now }
{
    keys.iter().any(|key| key.0 == c.0)
}

// The value of a column in the first row, NULL where there is no row.
fn first_cell<'a>(s: &Schema, rows: &[&'a Row], c: ColId) -> ValueRef<'a>
    ensures { owned result ≡ operators.first_row (map (λ row. cell s.now row.now) rows.now) c }
{
    match rows {
        [] => ValueRef::Null,
        [first, ..] => column(c, s, first),
    }
}

// The value of a key, NULL where the column is none.
fn key_cell<'a>(keys: &[ColId], s: &Schema, rows: &[&'a Row], c: ColId) -> ValueRef<'a>
    ensures { owned result ≡ operators.key_cells keys.now (operators.first_row (map (λ row. cell s.now row.now) rows.now)) c }
{
    if is_key(keys, c) {
        first_cell(s, rows, c)
    } else {
        ValueRef::Null
    }
}

// The first value, or the second where it is NULL.
fn or_else<'a>(first: ValueRef<'a>, second: ValueRef<'a>) -> ValueRef<'a>
    ensures { owned result ≡ env.or_else (owned first.entry) (owned second.entry) }
{
    match first {
        ValueRef::Null => second,
        other => other,
    }
}

fn made_cell<'a>(
    stage: Stage,
    keys: &[ColId],
    aggs: &'a [Agg],
    s: &Schema,
    rows: &[&'a Row],
    c: ColId,
) -> ValueRef<'a>
    ensures { owned result ≡ spec.made_row stage keys.now aggs.now (map (λ row. cell s.now row.now) rows.now) c }
{
    or_else(
        key_cell(keys, s, rows, c),
        aggregate_cell(stage, aggs, s, rows, c),
    )
}

/// The row of a group over these columns: its keys, and in the column of each aggregate its value.
pub fn made_row<'a>(
    alloc: Global,
    made: &Schema,
    stage: Stage,
    keys: &[ColId],
    aggs: &'a [Agg],
    s: &Schema,
    rows: &[&'a Row],
) -> Result<Row, NoMemory>
    ensures { IfOk result (λ row. row ≡ row_over made.now (spec.made_row stage keys.now aggs.now (map (λ row. cell s.now row.now) rows.now))) }
{
    let columns = made.cols();
    let mut values = Vec::with_capacity(alloc, columns.len())?;
    for column in columns {
        values.push(made_cell(stage, keys, aggs, s, rows, column.0).to_value(alloc)?)?;
    }
    Ok(Row::from_values(values))
}
