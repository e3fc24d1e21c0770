//! CREATE TABLE.

ghost use Rattle.std.specs.Prelude.{◌≡◌, [], ◌∷◌, ◌++◌, IfOk};
ghost use Rattle.std.specs.List.{list_any};
ghost use Rattle.pdw_walk.specs.Statements as spec;
ghost use Rattle.pdw_walk.specs.Statements.{Answers, answer_of};
ghost use Rattle.pdw_walk.specs.Walk.{Walks, beginning, over};

use crate::columns::place_of_column;
use pdw_base::Str;
use pdw_catalog::{Catalog, Column, MOST_COLUMNS, MOST_TABLES, Placing, Table};
use pdw_form::Judged;
use pdw_walk::{JudgeFault, LimitName};
use sqlite_items::Items as ListOf;
use std::alloc::Global;

fn has_column(columns: &[Column], name: &Str) -> bool
    ensures { result ≡ list_any (spec.is_named name.now) columns.now }
{
    columns.iter().any(|column| column.name == *name)
}

// One column more.
fn new_column(
    alloc: Global,
    before: ListOf<Column>,
    column: &Column,
) -> Result<ListOf<Column>, JudgeFault>
    ensures step { Walks (spec.new_column before column.now beginning) result beginning }
    ensures more { IfOk result (λ columns. columns ≡ before ++ column.now ∷ []) }
{
    if before.len() == MOST_COLUMNS {
        return Err(JudgeFault::Limit {
            which: LimitName::Columns,
            most: MOST_COLUMNS as u64,
        });
    }
    if has_column(before.as_slice(), &column.name) {
        return Err(JudgeFault::DuplicateName(column.name.try_copy(alloc)?));
    }
    let mut columns = before;
    columns.push(column.try_copy(alloc)?)?;
    Ok(columns)
}

// The columns, from left to right.
#[tactic(auto, using(pdw_resolve::proofs::Turns::turns))]
fn new_columns(alloc: Global, columns: &[Column]) -> Result<ListOf<Column>, JudgeFault>
    ensures steps { Walks (over spec.new_column [] columns.now beginning) result beginning }
    ensures same { IfOk result (λ found. found ≡ columns.now) }
{
    let mut found = ListOf::new(alloc);
    for column in columns {
        found = new_column(alloc, found, column)?;
    }
    Ok(found)
}

// Where rows are to stand: by the hash of the named column, or everywhere.
fn placing(alloc: Global, columns: &[Column], hash: &Option<Str>) -> Result<Placing, JudgeFault>
    ensures { Walks (spec.placing columns.now hash.now beginning) result beginning }
{
    match hash {
        Some(name) => Ok(Placing::Hash(place_of_column(alloc, columns, name)?)),
        None => Ok(Placing::Replicate),
    }
}

/// A table that is to be made: a known name, then the columns, then the hash column, then one table too many.
#[tactic(auto, unfolding(pdw_walk::specs::Statements::create))]
pub fn create(
    alloc: Global,
    catalog: &Catalog,
    name: &Str,
    columns: &[Column],
    hash: &Option<Str>,
) -> Result<Judged, JudgeFault>
    ensures { Answers (answer_of (spec.create catalog.now name.now columns.now hash.now beginning)) result }
{
    if catalog.table(name).is_some() {
        return Err(JudgeFault::TableExists(name.try_copy(alloc)?));
    }
    let found = new_columns(alloc, columns)?;
    let placing = placing(alloc, columns, hash)?;
    if catalog.len() >= MOST_TABLES {
        return Err(JudgeFault::Limit {
            which: LimitName::Tables,
            most: MOST_TABLES as u64,
        });
    }
    Ok(Judged::Create(Table {
        name: name.try_copy(alloc)?,
        columns: found,
        placing,
    }))
}
