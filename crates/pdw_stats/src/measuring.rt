ghost use Rattle.std.specs.Prelude.{◌≡◌, ◌==◌, ◌≤◌, List, [], ◌∷◌, length, map, max, Some, IfOk, OnOk, if◌then◌else◌};
ghost use Rattle.std.specs.Int.{div_ceil};
ghost use Rattle.std.specs.List.{enumerate_from, flat_map, sum_by};
ghost use Rattle.pdw_base.specs.SameBag.{SameBag};
ghost use Rattle.pdw_base.specs.Value.{owned};
ghost use Rattle.pdw_catalog.specs.Appliance.{HasTable};
ghost use Rattle.pdw_catalog.specs.Table.{Row as RowValue, value_at};
ghost use Rattle.pdw_catalog.specs.declared.table.Column.{Column as ColumnValue};
ghost use Rattle.pdw_stats.specs.Stats.{IsInRange, usual_width};
ghost use Rattle.pdw_stats.specs.Measured.{bytes_of, column_at, known_values, measured, measured_column, measured_table};
ghost use Rattle.pdw_stats.specs.Known.{AreFewBytes, Sees};

use crate::known::Known;
use crate::stats::{ColStat, Stats, default_width};
use pdw_base::{Bag, Kind, NoMemory, Row, Str, ValueRef};
use pdw_catalog::{Appliance, Column};
use sqlite_items::Items;
use std::alloc::Global;
use std::collections::BTreeSet;

/// The statistics that a whole table has, a replicated one of one copy.
pub fn measure(alloc: Global, app: &Appliance, table: &Str) -> Result<Stats, NoMemory>
    requires { HasTable app.now table.now }
    ensures measured { IfOk result (λ stats. measured_table table.now app.now ≡ Some stats) }
    ensures range { IfOk result IsInRange }
{
    let columns = app.catalog().table(table).unwrap().columns.as_slice();
    let rows = app.row_count(table);
    let cols = measure_columns(alloc, columns, app.parts(table), rows)?;
    Ok(Stats {
        rows: rows as u64,
        cols,
    })
}

/// The law of `measure`: the order of the rows does not matter, nor how the nodes share them.
pub fn measures_of_equal_bags_are_equal()
    ensures { (columns : List ColumnValue) (rows others : List RowValue) → SameBag rows others → measured columns rows ≡ measured columns others }
{}

// What is known of the columns of the rows in these parts.
fn measure_columns(
    alloc: Global,
    columns: &[Column],
    parts: &[Bag],
    rows: usize,
) -> Result<Items<ColStat>, NoMemory>
    requires rows { rows ≡ length (flat_map (λ bag. bag) parts.now) }
    requires few { AreFewBytes (flat_map (λ bag. bag) parts.now) }
    ensures { let all = flat_map (λ bag. bag) parts.now in
        IfOk result (λ cols. cols ≡ map (λ numbered. measured_column numbered.1.kind (column_at numbered.0 all)) (enumerate_from 0 columns.now)) }
{
    let mut cols = Items::new(alloc);
    for (place, column) in columns.iter().enumerate() {
        cols.push(measure_column(alloc, column.kind, parts, rows, place)?)?;
    }
    Ok(cols)
}

// What is known of one column.
fn measure_column(
    alloc: Global,
    kind: Kind,
    parts: &[Bag],
    rows: usize,
    place: usize,
) -> Result<ColStat, NoMemory>
    requires rows { rows ≡ length (flat_map (λ bag. bag) parts.now) }
    requires few { AreFewBytes (flat_map (λ bag. bag) parts.now) }
    ensures { IfOk result (λ column. column ≡ measured_column kind (column_at place (flat_map (λ bag. bag) parts.now))) }
{
    let distinct = count_known(alloc, parts, place)?.max(1);
    Ok(ColStat {
        distinct: distinct as u64,
        width: mean(bytes_at(parts, place), rows, kind),
    })
}

// The bytes of a value of so many, rounded up and at least 1.
fn mean(bytes: u64, values: usize, kind: Kind) -> u32
    requires { bytes ≤ 1000000000 }
    ensures { result ≡ (if values == 0 then usual_width kind else max 1 (div_ceil bytes values)) }
{
    if values == 0 {
        default_width(kind)
    } else {
        bytes.div_ceil(values as u64).max(1) as u32
    }
}

// The bytes of a column.
fn bytes_at(parts: &[Bag], place: usize) -> u64
    requires { AreFewBytes (flat_map (λ bag. bag) parts.now) }
    ensures { result ≡ sum_by bytes_of (column_at place (flat_map (λ bag. bag) parts.now)) }
{
    let mut bytes = 0;
    for part in parts {
        bytes += bytes_in(part.rows(), place);
    }
    bytes
}

// The bytes of a column of some rows.
fn bytes_in(rows: &[Row], place: usize) -> u64
    requires { AreFewBytes rows.now }
    ensures { result ≡ sum_by bytes_of (column_at place rows.now) }
{
    let mut bytes = 0;
    for row in rows {
        bytes += size(cell(row, place));
    }
    bytes
}

// How many different values a column has, NULL left out.
fn count_known(alloc: Global, parts: &[Bag], place: usize) -> Result<usize, NoMemory>
    ensures { IfOk result (λ count. count ≡ known_values (column_at place (flat_map (λ bag. bag) parts.now))) }
{
    let mut seen = BTreeSet::new(alloc);
    for part in parts {
        see_values(&mut seen, part.rows(), place)?;
    }
    Ok(seen.len())
}

// Puts the values of a column of some rows to those that were seen.
fn see_values<'a>(
    seen: &mut BTreeSet<Known<'a>>,
    rows: &'a [Row],
    place: usize,
) -> Result<(), NoMemory>
    ensures { OnOk result (Sees seen.old.keys seen.new.keys (column_at place rows.now)) }
{
    for row in rows {
        see(seen, cell(row, place))?;
    }
    Ok(())
}

// Puts a value to those that were seen, unless it is NULL.
fn see<'a>(seen: &mut BTreeSet<Known<'a>>, value: ValueRef<'a>) -> Result<(), NoMemory>
    ensures { OnOk result (Sees seen.old.keys seen.new.keys (owned value.entry ∷ [])) }
{
    match value {
        ValueRef::Null => Ok(()),
        ValueRef::Int(_) | ValueRef::Text(_) | ValueRef::Wide(_) => {
            seen.insert(Known { value })?;
            Ok(())
        }
    }
}

// The value in a column. One that the row lacks counts as NULL.
fn cell(row: &Row, place: usize) -> ValueRef<'_>
    ensures { owned result ≡ value_at place row.now }
{
    match row.values().get(place) {
        Some(value) => value.as_ref(),
        None => ValueRef::Null,
    }
}

// The bytes of a value.
fn size(value: ValueRef<'_>) -> u64
    ensures { result ≡ bytes_of (owned value.entry) }
{
    match value {
        ValueRef::Null => 1,
        ValueRef::Int(_) => 8,
        ValueRef::Text(text) => text.bytes().len() as u64,
        ValueRef::Wide(_) => 16,
    }
}
