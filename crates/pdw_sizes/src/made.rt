//! What an operator makes its columns of.

ghost use Rattle.std.specs.Prelude.{◌≡◌, Option, None, Some};
ghost use Rattle.std.specs.List.{find};
ghost use Rattle.std.specs.Map.{lookup};
ghost use Rattle.std.specs.Option.{option_and_then, option_copied};
ghost use Rattle.pdw_expr.specs.declared.agg.Agg.{Agg as AggValue};
ghost use Rattle.pdw_expr.specs.declared.scalar.Scalar.{Scalar as ScalarValue};
ghost use Rattle.pdw_sizes.specs.Estimate as spec;
ghost use Rattle.pdw_stats.specs.Book.{stats_of};

use crate::WIDEST;
use pdw_base::{ColId, Str, Value};
use pdw_expr::{Agg, Scalar};
use pdw_stats::{ColStat, StatsBook};

/// A column that is computed from others.
pub(crate) fn computed(width: u32) -> ColStat
    ensures { result ≡ spec.computed width }
{
    ColStat {
        distinct: 100,
        width,
    }
}

/// The numbers of a column, where some are there or not.
pub(crate) fn known(found: Option<ColStat>) -> ColStat
    ensures { result ≡ spec.known found }
{
    found.unwrap_or(computed(8))
}

// The place of a column in the scanned table.
fn place_of(cols: &[(ColId, u32)], c: ColId) -> Option<u32>
    ensures { result ≡ lookup (spec.is_number c) cols.now }
{
    for col in cols {
        if col.0.0 == c.0 {
            return Some(col.1);
        }
    }
    None
}

/// The numbers of a column of a scanned table.
pub(crate) fn scanned_column(
    book: &StatsBook,
    table: &Str,
    cols: &[(ColId, u32)],
    c: ColId,
) -> Option<ColStat>
    ensures { result ≡ spec.scanned_columns (stats_of table.now book.now) cols.now c }
{
    let Some(place) = place_of(cols, c) else {
        return None;
    };
    match book.get(table) {
        Some(stats) => stats.cols.get(place as usize).copied(),
        None => None,
    }
}

/// The expression that makes a column, or None where the column is passed on.
pub(crate) fn item_of(items: &[(ColId, Option<Scalar>)], c: ColId) -> Option<&Scalar>
    ensures { option_copied result ≡ option_and_then (λ item. item) (lookup (spec.is_number c) items.now) }
{
    for item in items {
        if item.0.0 == c.0 {
            return item.1.as_ref();
        }
    }
    None
}

/// The aggregate that makes a column.
pub(crate) fn aggregate_of(aggs: &[Agg], c: ColId) -> Option<&Agg>
    ensures { option_copied result ≡ find (λ (agg : AggValue). spec.is_number c agg.out) aggs.now }
{
    aggs.iter().find(|agg| agg.out.0 == c.0)
}

/// The width of a literal: of a text its bytes.
pub(crate) fn literal_width(value: &Value) -> u32
    ensures { result ≡ spec.literal_width value.now }
{
    match value {
        Value::Text(text) => text.bytes().len().max(1).min(WIDEST as usize) as u32,
        Value::Null | Value::Int(_) | Value::Wide(_) => 8,
    }
}
