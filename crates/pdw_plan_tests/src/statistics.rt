ghost use Rattle.std.specs.Prelude.{◌≡◌, [], ◌∷◌, Some, vec_len, IfOk};
ghost use Rattle.std.specs.List.{AllByRecursion};
ghost use Rattle.pdw_catalog.specs.Table.{FitsTable, IsPlaced};
ghost use Rattle.pdw_catalog.specs.Appliance.{creating, empty_of};
ghost use Rattle.pdw_catalog.specs.Sample.{sample_columns, sample_table};

use pdw_base::{Kind, NoMemory, NodeCount, Row, Str, Value};
use pdw_catalog::{Appliance, Column, Placing, Table};
use pdw_stats::{ColStat, Stats, StatsBook, default_stats, measure};
use sqlite_items::Items;
use std::alloc::Global;
use std::process::Abort;
use std::test::Fail;

// The table t (a INT, b TEXT).
fn sample(alloc: Global, placing: Placing) -> Result<Table, NoMemory>
    ensures { IfOk result (λ table. table ≡ sample_table (116 ∷ []) placing) }
{
    let mut columns = Vec::new(alloc);
    columns.push(Column {
        name: Str::from_text(alloc, "a")?,
        kind: Kind::Int,
        nullable: true,
    })?;
    columns.push(Column {
        name: Str::from_text(alloc, "b")?,
        kind: Kind::Text,
        nullable: true,
    })?;
    Ok(Table {
        name: Str::from_text(alloc, "t")?,
        columns: Items::from_vec(columns),
        placing,
    })
}

fn row(alloc: Global, number: i64, text: Value) -> Result<Row, NoMemory>
    ensures { IfOk result (λ row. row ≡ Value.Int number ∷ text ∷ []) }
{
    let mut values = Vec::new(alloc);
    values.push(Value::Int(number))?;
    values.push(text)?;
    Ok(Row::from_values(values))
}

// (1, 'x,y'), (2, '') and (3, NULL).
fn three_rows(alloc: Global) -> Result<Vec<Row>, NoMemory>
    ensures count { IfOk result (λ rows. vec_len rows ≡ 3) }
    ensures fit { IfOk result (λ rows. AllByRecursion (FitsTable sample_columns) rows.items) }
{
    let mut rows = Vec::new(alloc);
    let text = Value::Text(Str::from_text(alloc, "x,y")?);
    rows.push(row(alloc, 1, text)?)?;
    let empty = Value::Text(Str::from_text(alloc, "")?);
    rows.push(row(alloc, 2, empty)?)?;
    rows.push(row(alloc, 3, Value::Null)?)?;
    Ok(rows)
}

// Three compute nodes and the empty table t.
pub(crate) fn with_table(alloc: Global, placing: Placing) -> Result<Appliance, NoMemory>
    requires { IsPlaced placing 2 }
    ensures { IfOk result (λ appliance. appliance ≡ creating (empty_of 3) (sample_table (116 ∷ []) placing)) }
{
    let mut appliance = Appliance::new(alloc, NodeCount::new(3).unwrap())?;
    let table = sample(alloc, placing)?;
    appliance.create_table(alloc, table)?;
    Ok(appliance)
}

// What a test wants of the table's two columns, by their different values and their width.
fn columns(a: (u64, u32), b: (u64, u32)) -> [ColStat; 2] {
    [a, b].map(|(distinct, width)| ColStat { distinct, width })
}

fn check(rt: &impl Abort, stats: &Stats, rows: u64, wanted: [ColStat; 2]) {
    assert_eq!(rt; stats.rows, rows);
    assert!(rt; stats.cols.as_slice() == wanted.as_slice());
}

fn check_measure(rt: &impl Abort, alloc: Global, placing: Placing) -> Result<(), NoMemory>
    requires { IsPlaced placing 2 }
{
    let mut appliance = with_table(alloc, placing)?;
    let name = Str::from_text(alloc, "t")?;
    let rows = three_rows(alloc)?;
    appliance.append_rows(alloc, &name, rows)?;
    let stats = measure(alloc, &appliance, &name)?;
    check(rt, &stats, 3, columns((3, 8), (2, 2)));
    Ok(())
}

#[test]
fn whole_tables_are_measured(rt: HostRuntime) -> Result<(), Fail> {
    check_measure(&rt, rt.alloc(), Placing::Hash(0))?;
    check_measure(&rt, rt.alloc(), Placing::Replicate)?;
    Ok(())
}

#[test]
fn a_table_without_rows_has_the_widths_of_an_unknown_one(rt: HostRuntime) -> Result<(), Fail> {
    let appliance = with_table(rt.alloc(), Placing::Hash(0))?;
    let name = Str::from_text(rt.alloc(), "t")?;
    let stats = measure(rt.alloc(), &appliance, &name)?;
    check(&rt, &stats, 0, columns((1, 8), (1, 32)));
    Ok(())
}

// Puts the statistics of an unknown table.
fn put_usual(alloc: Global, book: &mut StatsBook, name: &Str) -> Result<(), NoMemory> {
    let table = sample(alloc, Placing::Replicate)?;
    let usual = default_stats(alloc, &table)?;
    book.put(alloc, name, usual)
}

// Puts the statistics of a table without columns.
fn put_rows(alloc: Global, book: &mut StatsBook, name: &Str) -> Result<(), NoMemory> {
    let cols = Items::new(alloc);
    book.put(alloc, name, Stats { rows: 7, cols })
}

#[test]
fn the_book_keeps_the_last_statistics(rt: HostRuntime) -> Result<(), Fail> {
    let mut book = StatsBook::new(rt.alloc());
    let name = Str::from_text(rt.alloc(), "t")?;
    put_rows(rt.alloc(), &mut book, &name)?;
    put_usual(rt.alloc(), &mut book, &name)?;
    check(
        &rt,
        book.get(&name).expect(&rt, "t"),
        1_000,
        columns((100, 8), (100, 32)),
    );
    Ok(())
}

#[test]
fn what_is_removed_is_gone(rt: HostRuntime) -> Result<(), Fail> {
    let mut book = StatsBook::new(rt.alloc());
    let name = Str::from_text(rt.alloc(), "t")?;
    let other = Str::from_text(rt.alloc(), "u")?;
    put_rows(rt.alloc(), &mut book, &name)?;
    book.remove(&other);
    assert!(rt; book.get(&name).is_some());
    book.remove(&name);
    assert!(rt; book.get(&name).is_none());
    Ok(())
}
