//! The output columns of a query.

ghost use Rattle.std.specs.Prelude.{◌≡◌, ◌++◌, IfOk, OnOk, length, map};
ghost use Rattle.std.specs.List.{filter, flat_map};
ghost use Rattle.std.specs.Str.{bytes_eq};
ghost use Rattle.pdw_semantics.specs.Environment.{group_of};
ghost use Rattle.pdw_semantics.specs.Queries as spec;

use pdw_base::{NoMemory, Row, Str, Value};
use pdw_plain_exprs::{Cell, Label, Scope, first_row, value_of};
use pdw_resolve::item_name;
use pdw_syntax::{Item, Items};
use sqlite_items::Items as ListOf;
use std::alloc::Global;

// Puts the values of an alias last.
fn push_under(
    alloc: Global,
    values: &mut Vec<Value>,
    alias: &Str,
    cells: &[Cell],
) -> Result<(), NoMemory>
    ensures { OnOk result (values.new.items ≡ values.old.items ++ map (λ cell. cell.value) (filter (λ cell. bytes_eq alias.now cell.alias) cells.now)) }
{
    for cell in cells {
        if *alias == cell.alias {
            values.push(cell.value.try_copy(alloc)?)?;
        }
    }
    Ok(())
}

// The values of all cells.
fn values_in(alloc: Global, cells: &[Cell]) -> Result<Vec<Value>, NoMemory>
    ensures { IfOk result (λ values. values.items ≡ map (λ cell. cell.value) cells.now) }
{
    let mut values = Vec::new(alloc);
    for cell in cells {
        values.push(cell.value.try_copy(alloc)?)?;
    }
    Ok(values)
}

// Puts the values of an item last.
fn push_item(
    alloc: Global,
    values: &mut Vec<Value>,
    item: &Item,
    rows: &[Scope],
    outers: &[Scope],
) -> Result<(), NoMemory>
    ensures { OnOk result (values.new.items ≡ values.old.items ++ spec.item_values (group_of rows.now outers.now) item.now) }
{
    match item {
        Item::AliasStar(alias) => push_under(alloc, values, alias, first_row(rows)),
        Item::Made { value, .. } => {
            values.push(value_of(alloc, value, rows, outers)?)?;
            Ok(())
        }
    }
}

fn values_of_list(
    alloc: Global,
    items: &[Item],
    rows: &[Scope],
    outers: &[Scope],
) -> Result<Vec<Value>, NoMemory>
    ensures { IfOk result (λ values. values.items ≡ flat_map (spec.item_values (group_of rows.now outers.now)) items.now) }
{
    let mut values = Vec::new(alloc);
    for item in items {
        push_item(alloc, &mut values, item, rows, outers)?;
    }
    Ok(values)
}

/// The output row of a group.
pub fn values_of(
    alloc: Global,
    items: &Items,
    rows: &[Scope],
    outers: &[Scope],
) -> Result<Row, NoMemory>
    ensures { IfOk result (λ row. row ≡ spec.values_of items.now (group_of rows.now outers.now)) }
{
    let values = match items {
        Items::Star => values_in(alloc, first_row(rows))?,
        Items::List(list) => values_of_list(alloc, list.as_slice(), rows, outers)?,
    };
    Ok(Row::from_values(values))
}

// Puts the names of an alias's columns last.
fn push_names_under(
    alloc: Global,
    names: &mut Vec<Str>,
    alias: &Str,
    labels: &[Label],
) -> Result<(), NoMemory>
    ensures { OnOk result (names.new.items ≡ names.old.items ++ map (λ label. label.column) (filter (λ label. bytes_eq alias.now label.alias) labels.now)) }
{
    for label in labels {
        if *alias == label.alias {
            names.push(label.column.try_copy(alloc)?)?;
        }
    }
    Ok(())
}

// The names of all columns.
fn names_in(alloc: Global, labels: &[Label]) -> Result<Vec<Str>, NoMemory>
    ensures { IfOk result (λ names. names.items ≡ map (λ label. label.column) labels.now) }
{
    let mut names = Vec::new(alloc);
    for label in labels {
        names.push(label.column.try_copy(alloc)?)?;
    }
    Ok(names)
}

// Puts the names of an item's columns last.
fn push_item_names(
    alloc: Global,
    names: &mut Vec<Str>,
    labels: &[Label],
    item: &Item,
) -> Result<(), NoMemory>
    ensures { OnOk result (names.new.items ≡ names.old.items ++ spec.item_names labels.now (length names.old.items) item.now) }
{
    match item {
        Item::AliasStar(alias) => push_names_under(alloc, names, alias, labels),
        Item::Made { value, name } => {
            let position = names.len() + 1;
            names.push(item_name(alloc, value, name, position)?)?;
            Ok(())
        }
    }
}

fn names_of_list(alloc: Global, labels: &[Label], items: &[Item]) -> Result<Vec<Str>, NoMemory>
    ensures { IfOk result (λ names. names.items ≡ spec.names_of_list labels.now items.now) }
{
    let mut names = Vec::new(alloc);
    for item in items {
        push_item_names(alloc, &mut names, labels, item)?;
    }
    Ok(names)
}

/// The names of the output columns.
pub fn names_of(alloc: Global, labels: &[Label], items: &Items) -> Result<ListOf<Str>, NoMemory>
    ensures { IfOk result (λ names. names ≡ spec.names_of labels.now items.now) }
{
    let names = match items {
        Items::Star => names_in(alloc, labels)?,
        Items::List(list) => names_of_list(alloc, labels, list.as_slice())?,
    };
    Ok(ListOf::from_vec(names))
}
