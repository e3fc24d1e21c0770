//! The output columns of a query: their names, and their values in rows.

ghost use Rattle.std.specs.Prelude.{◌≡◌, ◌++◌, IfOk, OnOk, map};
ghost use Rattle.std.specs.List.{flat_map};
ghost use Rattle.pdw_base.specs.Schema.{cell};
ghost use Rattle.pdw_expr.specs.Rows.{key_of};
ghost use Rattle.pdw_form.specs.Numbered.{outs_of};
ghost use Rattle.pdw_keys.specs.Places.{key_at, places_of};

use pdw_base::{Bag, NoMemory, Row, Schema, Str};
use pdw_form::JItem;
use pdw_keys::value_at;
use sqlite_items::Items;
use std::alloc::Global;

// Where the output columns stand in rows of these columns, in the order of the items.
fn output_places(
    alloc: Global,
    items: &[JItem],
    columns: &Schema,
) -> Result<Vec<Option<usize>>, NoMemory>
    ensures { IfOk result (λ places. places.items ≡ places_of columns.now (outs_of items.now)) }
{
    let mut places = Vec::with_capacity(alloc, items.len())?;
    for item in items {
        places.push(columns.place(item.out))?;
    }
    Ok(places)
}

// The values of a row at these places.
fn output_row(alloc: Global, places: &[Option<usize>], row: &Row) -> Result<Row, NoMemory>
    ensures { IfOk result (λ output. output ≡ key_at places.now row.now) }
{
    let mut values = Vec::with_capacity(alloc, places.len())?;
    for place in places {
        values.push(value_at(row.values(), *place).to_value(alloc)?)?;
    }
    Ok(Row::from_values(values))
}

// Puts the values of a bag's rows at these places last.
fn add_rows(
    alloc: Global,
    places: &[Option<usize>],
    bag: &[Row],
    rows: &mut Vec<Row>,
) -> Result<(), NoMemory>
    ensures { OnOk result (rows.new.items ≡ rows.old.items ++ map (key_at places.now) bag.now) }
{
    for row in bag {
        rows.push(output_row(alloc, places, row)?)?;
    }
    Ok(())
}

/// The rows of bags, one bag after the other, each row read in the order of the items.
pub(crate) fn output_rows(
    alloc: Global,
    items: &[JItem],
    columns: &Schema,
    bags: &[Bag],
) -> Result<Vec<Row>, NoMemory>
    ensures { IfOk result (λ rows. rows.items ≡ map (key_of (outs_of items.now)) (map (cell columns.now) (flat_map (λ bag. bag) bags.now))) }
{
    let places = output_places(alloc, items, columns)?;
    let mut rows = Vec::new(alloc);
    for bag in bags {
        add_rows(alloc, places.as_slice(), bag.rows(), &mut rows)?;
    }
    Ok(rows)
}

/// The names of the items.
pub(crate) fn output_names(alloc: Global, items: &[JItem]) -> Result<Items<Str>, NoMemory>
    ensures { IfOk result (λ names. names ≡ map (λ item. item.name) items.now) }
{
    let mut names = Items::new(alloc);
    for item in items {
        names.push(item.name.try_copy(alloc)?)?;
    }
    Ok(names)
}
