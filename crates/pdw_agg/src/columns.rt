//! The columns of the rows that a grouping makes.

ghost use Rattle.std.specs.Prelude.{◌≡◌, IfOk, map};
ghost use Rattle.pdw_agg.specs.Made as spec;
ghost use Rattle.pdw_algebra.specs.Schema.{rising};

use pdw_algebra::schema_over;
use pdw_base::{ColId, Kind, NoMemory, Schema};
use pdw_expr::Agg;
use std::alloc::Global;

fn key_columns(alloc: Global, keys: &[ColId]) -> Result<Vec<(ColId, Kind)>, NoMemory>
    ensures { IfOk result (λ columns. columns.items ≡ map spec.numbered keys.now) }
{
    let mut columns = Vec::with_capacity(alloc, keys.len())?;
    for key in keys {
        columns.push((*key, Kind::Int))?;
    }
    Ok(columns)
}

fn aggregate_columns(alloc: Global, aggs: &[Agg]) -> Result<Vec<(ColId, Kind)>, NoMemory>
    ensures { IfOk result (λ columns. columns.items ≡ map (λ agg. spec.numbered agg.out) aggs.now) }
{
    let mut columns = Vec::with_capacity(alloc, aggs.len())?;
    for agg in aggs {
        columns.push((agg.out, Kind::Int))?;
    }
    Ok(columns)
}

/// The keys and a column for each aggregate, by rising numbers. Rows have no kinds, so all count as INT here.
pub fn made_columns(alloc: Global, keys: &[ColId], aggs: &[Agg]) -> Result<Schema, NoMemory>
    ensures { IfOk result (λ made. made ≡ rising (spec.made_columns keys.now aggs.now)) }
{
    let mut columns = key_columns(alloc, keys)?;
    let mut more = aggregate_columns(alloc, aggs)?;
    columns.append(&mut more)?;
    schema_over(alloc, columns.as_slice())
}
