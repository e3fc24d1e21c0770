//! Tables and derived tables as elements of FROM.

ghost use Rattle.std.specs.Prelude.{◌≡◌, [], IfOk, map};
ghost use Rattle.pdw_catalog.specs.Database.{undivided};
ghost use Rattle.pdw_semantics.specs.Environment.{labelled};
ghost use Rattle.pdw_semantics.specs.Froms as froms;
ghost use Rattle.pdw_meaning.specs.Joins as spec;
ghost use Rattle.pdw_walk.specs.Froms as scope;

use pdw_base::{NoMemory, Row, Str};
use pdw_catalog::{Appliance, Column};
use pdw_plain_exprs::{Element, Label, Scope, labelled_row};
use sqlite_items::Items as ListOf;
use std::alloc::Global;

fn label_of(alloc: Global, alias: &Str, column: &Str) -> Result<Label, NoMemory>
    ensures { IfOk result (λ label. label ≡ froms.label_of alias.now column.now) }
{
    Ok(Label {
        alias: alias.try_copy(alloc)?,
        column: column.try_copy(alloc)?,
    })
}

fn column_labels(alloc: Global, alias: &Str, columns: &[Column]) -> Result<ListOf<Label>, NoMemory>
    ensures { IfOk result (λ labels. labels ≡ map (λ column. froms.label_of alias.now column.name) columns.now) }
{
    let mut labels = ListOf::new(alloc);
    for column in columns {
        labels.push(label_of(alloc, alias, &column.name)?)?;
    }
    Ok(labels)
}

fn name_labels(alloc: Global, alias: &Str, names: &[Str]) -> Result<ListOf<Label>, NoMemory>
    ensures { IfOk result (λ labels. labels ≡ map (froms.label_of alias.now) names.now) }
{
    let mut labels = ListOf::new(alloc);
    for name in names {
        labels.push(label_of(alloc, alias, name)?)?;
    }
    Ok(labels)
}

fn labelled_rows(alloc: Global, labels: &[Label], rows: &[Row]) -> Result<ListOf<Scope>, NoMemory>
    ensures { IfOk result (λ scopes. scopes ≡ map (labelled labels.now) rows.now) }
{
    let mut scopes = ListOf::new(alloc);
    for row in rows {
        scopes.push(labelled_row(alloc, labels, row.values())?)?;
    }
    Ok(scopes)
}

fn called<'a>(table: &'a Str, alias: &'a Option<Str>) -> &'a Str
    ensures { result.now ≡ scope.called table.now alias.now }
{
    match alias {
        Some(alias) => alias,
        None => table,
    }
}

// The whole table, under the alias.
fn table_element(
    alloc: Global,
    app: &Appliance,
    table: &Str,
    alias: &Str,
) -> Result<Element, NoMemory>
    ensures { IfOk result (λ element. element ≡ spec.element_at (froms.table_meaning (undivided app.now) table.now alias.now) []) }
{
    let Some(found) = app.catalog().table(table) else {
        return Ok(Element {
            labels: ListOf::new(alloc),
            scopes: ListOf::new(alloc),
        });
    };
    let labels = column_labels(alloc, alias, found.columns.as_slice())?;
    let rows = app.whole(alloc, table)?;
    let scopes = labelled_rows(alloc, labels.as_slice(), rows.rows())?;
    Ok(Element { labels, scopes })
}

/// The whole table of a name, under its alias: SQL-92, 6.3.
pub fn named_element(
    alloc: Global,
    app: &Appliance,
    table: &Str,
    alias: &Option<Str>,
) -> Result<Element, NoMemory>
    ensures { IfOk result (λ element. element ≡ spec.element_at (froms.table_meaning (undivided app.now) table.now (scope.called table.now alias.now)) []) }
{
    table_element(alloc, app, table, called(table, alias))
}

/// The rows that a query gave, under an alias and the output names: SQL-92, 6.3.
pub fn derived_element(
    alloc: Global,
    alias: &Str,
    names: &[Str],
    rows: &[Row],
) -> Result<Element, NoMemory>
    ensures { IfOk result (λ element. element ≡ spec.derived_element alias.now names.now rows.now) }
{
    let labels = name_labels(alloc, alias, names)?;
    let scopes = labelled_rows(alloc, labels.as_slice(), rows)?;
    Ok(Element { labels, scopes })
}
