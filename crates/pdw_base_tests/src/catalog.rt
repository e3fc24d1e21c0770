//! Tests of an appliance with its tables.

ghost use Rattle.std.specs.Prelude.{◌≡◌, ◌<◌, [], ◌∷◌, Some, vec_len, IfOk};
ghost use Rattle.std.specs.List.{AllByRecursion};
ghost use Rattle.pdw_catalog.specs.Table.{FitsTable, IsPlaced};
ghost use Rattle.pdw_catalog.specs.Appliance.{HasTable, creating, empty_of};
ghost use Rattle.pdw_catalog.specs.Sample.{sample_columns, sample_table};
ghost use Rattle.pdw_catalog.specs.declared.table.Placing.TheVariants as placings;

use pdw_base::{Bag, Kind, NoMemory, NodeCount, Row, Str, Value};
use pdw_catalog::{Appliance, Column, Placing, Table};
use sqlite_items::Items;
use std::alloc::Global;
use std::test::Fail;

fn sample(alloc: Global, name: Str, placing: Placing) -> Result<Table, NoMemory>
    ensures { IfOk result (λ table. table ≡ sample_table name placing) }
{
    let mut columns = Vec::new(alloc);
    columns.push(Column {
        name: Str::from_text(alloc, "a")?,
        kind: Kind::Int,
        nullable: true,
    })?;
    columns.push(Column {
        name: Str::from_text(alloc, "b")?,
        kind: Kind::Text,
        nullable: true,
    })?;
    Ok(Table {
        name,
        columns: Items::from_vec(columns),
        placing,
    })
}

fn row(alloc: Global, number: Value, letter: Str) -> Result<Row, NoMemory>
    ensures { IfOk result (λ row. row ≡ number ∷ Value.Text letter ∷ []) }
{
    let mut values = Vec::new(alloc);
    values.push(number)?;
    values.push(Value::Text(letter))?;
    Ok(Row::from_values(values))
}

// (4, 'x') and (NULL, 'y').
fn two_rows(alloc: Global) -> Result<Vec<Row>, NoMemory>
    ensures count { IfOk result (λ rows. vec_len rows ≡ 2) }
    ensures fit { IfOk result (λ rows. AllByRecursion (FitsTable sample_columns) rows.items) }
{
    let mut rows = Vec::new(alloc);
    rows.push(row(alloc, Value::Int(4), Str::from_text(alloc, "x")?)?)?;
    rows.push(row(alloc, Value::Null, Str::from_text(alloc, "y")?)?)?;
    Ok(rows)
}

// So many rows (4, 'x').
fn equal_rows(alloc: Global, count: usize) -> Result<Vec<Row>, NoMemory>
    ensures count { IfOk result (λ rows. vec_len rows ≡ count) }
    ensures fit { IfOk result (λ rows. AllByRecursion (FitsTable sample_columns) rows.items) }
{
    let mut rows = Vec::new(alloc);
    for _row in 0..count {
        rows.push(row(alloc, Value::Int(4), Str::from_text(alloc, "x")?)?)?;
    }
    Ok(rows)
}

// The first value of each row, with a space after it.
fn shown(alloc: Global, bag: &Bag) -> Result<String, NoMemory> {
    let mut text = String::new(alloc);
    for row in bag.rows() {
        match row.values().first() {
            Some(Value::Int(number)) => text.push_str(format!(in alloc; "{number} ")?.as_str())?,
            _ => text.push_str("NULL ")?,
        }
    }
    Ok(text)
}

// Three compute nodes and the empty table t.
fn with_table(alloc: Global, placing: Placing) -> Result<Appliance, NoMemory>
    requires { IsPlaced placing 2 }
    ensures { IfOk result (λ appliance. appliance ≡ creating (empty_of 3) (sample_table (116 ∷ []) placing)) }
{
    let mut appliance = Appliance::new(alloc, NodeCount::new(3).unwrap())?;
    let table = sample(alloc, Str::from_text(alloc, "t")?, placing)?;
    appliance.create_table(alloc, table)?;
    Ok(appliance)
}

// The table t with the two rows, at three compute nodes.
fn filled(alloc: Global, placing: Placing) -> Result<Appliance, NoMemory>
    requires { IsPlaced placing 2 }
    ensures there { IfOk result (λ appliance. HasTable appliance (116 ∷ [])) }
{
    let name = Str::from_text(alloc, "t")?;
    let rows = two_rows(alloc)?;
    let mut appliance = with_table(alloc, placing)?;
    appliance.append_rows(alloc, &name, rows)?;
    Ok(appliance)
}

// What stands at each node, with a bar after it.
fn shown_nodes(alloc: Global, appliance: &Appliance, name: &Str) -> Result<String, NoMemory>
    requires { HasTable appliance.now name.now }
{
    let mut text = String::new(alloc);
    for node in 0..appliance.nodes().get() {
        text.push_str(shown(alloc, appliance.rows_at(name, node))?.as_str())?;
        text.push_str("|")?;
    }
    Ok(text)
}

fn shown_whole(alloc: Global, appliance: &Appliance, name: &Str) -> Result<String, NoMemory>
    requires { HasTable appliance.now name.now }
{
    let all = appliance.whole(alloc, name)?;
    shown(alloc, &all)
}

// What stands at each node, how many rows the whole table has, and these.
fn shown_table(alloc: Global, appliance: &Appliance, name: &Str) -> Result<String, NoMemory>
    requires { HasTable appliance.now name.now }
{
    let nodes = shown_nodes(alloc, appliance, name)?;
    let whole = shown_whole(alloc, appliance, name)?;
    let count = appliance.row_count(name);
    Ok(format!(in alloc; "{nodes} {count} rows: {whole}")?)
}

// The two rows, placed so.
fn shown_placed(alloc: Global, placing: Placing) -> Result<String, NoMemory>
    requires { IsPlaced placing 2 }
{
    let name = Str::from_text(alloc, "t")?;
    let appliance = filled(alloc, placing)?;
    shown_table(alloc, &appliance, &name)
}

#[test]
fn rows_stand_where_the_placing_says(rt: HostRuntime) -> Result<(), Fail> {
    let hashed = shown_placed(rt.alloc(), Placing::Hash(0))?;
    assert_eq!(rt; hashed.as_str(), "NULL |4 || 2 rows: NULL 4 ");
    let copied = shown_placed(rt.alloc(), Placing::Replicate)?;
    assert_eq!(rt; copied.as_str(), "4 NULL |4 NULL |4 NULL | 2 rows: 4 NULL ");
    Ok(())
}

// The table t, and after it the replicated table u.
fn with_second(alloc: Global) -> Result<Appliance, NoMemory>
    ensures { IfOk result (λ appliance. appliance ≡ creating (creating (empty_of 3) (sample_table (116 ∷ []) (placings.Hash 0))) (sample_table (117 ∷ []) placings.Replicate)) }
{
    let table = sample(alloc, Str::from_text(alloc, "u")?, Placing::Replicate)?;
    let mut appliance = with_table(alloc, Placing::Hash(0))?;
    appliance.create_table(alloc, table)?;
    Ok(appliance)
}

// The table u with the two rows. The table t is gone.
fn after_drop(alloc: Global, first: &Str, second: &Str) -> Result<Appliance, NoMemory>
    requires first { first.now ≡ 116 ∷ [] }
    requires second { second.now ≡ 117 ∷ [] }
    ensures there { IfOk result (λ appliance. HasTable appliance second.now) }
{
    let rows = two_rows(alloc)?;
    let mut appliance = with_second(alloc)?;
    appliance.append_rows(alloc, second, rows)?;
    appliance.drop_table(first);
    Ok(appliance)
}

fn has_second(appliance: &Appliance, first: &Str, second: &Str) -> bool {
    let catalog = appliance.catalog();
    appliance.nodes().get() == 3
        && catalog.len() == 1
        && !catalog.is_empty()
        && catalog.table(first).is_none()
        && catalog.table(second).is_some()
}

// Whether a copy is replicated and has two columns.
fn is_copied(alloc: Global, table: &Table) -> Result<bool, NoMemory> {
    let copy = table.try_copy(alloc)?;
    Ok(
        copy.columns.len() == 2
            && copy.placing == Placing::Replicate
            && copy.placing.most_rows() == 100_000,
    )
}

fn second_is_left(alloc: Global) -> Result<bool, NoMemory> {
    let first = Str::from_text(alloc, "t")?;
    let second = Str::from_text(alloc, "u")?;
    let appliance = after_drop(alloc, &first, &second)?;
    Ok(has_second(&appliance, &first, &second) && is_copied(alloc, appliance.table(&second))?)
}

fn shown_second(alloc: Global) -> Result<String, NoMemory> {
    let first = Str::from_text(alloc, "t")?;
    let second = Str::from_text(alloc, "u")?;
    let appliance = after_drop(alloc, &first, &second)?;
    shown_table(alloc, &appliance, &second)
}

#[test]
fn dropping_leaves_the_other_table(rt: HostRuntime) -> Result<(), Fail> {
    assert!(rt; second_is_left(rt.alloc())?);
    let found = shown_second(rt.alloc())?;
    assert_eq!(rt; found.as_str(), "4 NULL |4 NULL |4 NULL | 2 rows: 4 NULL ");
    Ok(())
}

// Whether a replicated table may have so many rows, and then has them.
fn keeps_rows(alloc: Global, count: usize) -> Result<bool, NoMemory> {
    let most = Placing::Replicate.most_rows();
    let rows = equal_rows(alloc, count)?;
    if rows.len() > most {
        return Ok(false);
    }
    let name = Str::from_text(alloc, "t")?;
    let mut appliance = with_table(alloc, Placing::Replicate)?;
    appliance.append_rows(alloc, &name, rows)?;
    Ok(appliance.row_count(&name) == count)
}

#[test]
fn a_replicated_table_has_at_most_100000_rows(rt: HostRuntime) -> Result<(), Fail> {
    assert!(rt; keeps_rows(rt.alloc(), 100_000)?);
    assert!(rt; !keeps_rows(rt.alloc(), 100_001)?);
    Ok(())
}
