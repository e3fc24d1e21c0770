ghost use Rattle.std.specs.Prelude.{◌≡◌, ◌∷◌, [], IfOk};
ghost use Rattle.pdw_catalog.specs.Sample.{sample_table};
ghost use Rattle.pdw_plan_tests.specs.Trees as trees;

use crate::statistics::with_table;
use pdw_algebra::Tree;
use pdw_base::{ColId, NoMemory, NodeCount, Str, Value};
use pdw_catalog::{Appliance, Placing};
use pdw_expr::{Agg, AggKind, Cmp, Cond, Scalar};
use pdw_groups::GroupId;
use pdw_memo::{Memo, initial};
use pdw_sizes::{Size, size_of};
use pdw_stats::{StatsBook, default_stats};
use sqlite_items::{Boxed, Items};
use std::alloc::Global;
use std::process::Abort;
use std::test::Fail;

fn scanned(alloc: Global, cols: Items<(ColId, u32)>) -> Result<Tree, NoMemory>
    ensures { IfOk result (λ tree. tree ≡ trees.scanned cols) }
{
    let table = Str::from_text(alloc, "t")?;
    let alias = Str::from_text(alloc, "t")?;
    Ok(Tree::Scan { table, alias, cols })
}

fn grouped(alloc: Global) -> Result<Tree, NoMemory>
    ensures { IfOk result (λ tree. tree ≡ trees.grouped) }
{
    let mut aggs = Items::new(alloc);
    aggs.push(Agg {
        kind: AggKind::CountStar,
        arg: None,
        out: ColId(0),
    })?;
    let child = Boxed::new(alloc, scanned(alloc, Items::new(alloc))?)?;
    Ok(Tree::GroupBy {
        keys: Items::new(alloc),
        aggs,
        child,
    })
}

// SELECT COUNT(*) FROM t
fn counted(alloc: Global) -> Result<Tree, NoMemory>
    ensures { IfOk result (λ tree. tree ≡ trees.counted) }
{
    let mut items = Items::new(alloc);
    items.push((ColId(0), None))?;
    let child = Boxed::new(alloc, grouped(alloc)?)?;
    Ok(Tree::Project { items, child })
}

fn two_cols(alloc: Global, a: u16, b: u16) -> Result<Items<(ColId, u32)>, NoMemory>
    ensures { IfOk result (λ cols. cols ≡ (record { 0 = a }, 0) ∷ (record { 0 = b }, 1) ∷ []) }
{
    let mut cols = Items::new(alloc);
    cols.push((ColId(a), 0))?;
    cols.push((ColId(b), 1))?;
    Ok(cols)
}

fn conjuncts(alloc: Global) -> Result<Items<Cond>, NoMemory>
    ensures { IfOk result (λ conds. conds ≡ trees.conjuncts) }
{
    let mut conds = Items::new(alloc);
    let a = Scalar::Col(ColId(0));
    conds.push(Cond::Compare(Cmp::Eq, a, Scalar::Col(ColId(2))))?;
    let x = Scalar::Lit(Value::Text(Str::from_text(alloc, "x")?));
    conds.push(Cond::Compare(Cmp::Eq, Scalar::Col(ColId(3)), x))?;
    Ok(conds)
}

fn two_leaves(alloc: Global) -> Result<Items<Tree>, NoMemory>
    ensures { IfOk result (λ leaves. leaves ≡ trees.scanned trees.first_cols ∷ trees.scanned trees.second_cols ∷ []) }
{
    let mut leaves = Items::new(alloc);
    leaves.push(scanned(alloc, two_cols(alloc, 0, 1)?)?)?;
    leaves.push(scanned(alloc, two_cols(alloc, 2, 3)?)?)?;
    Ok(leaves)
}

// The table with itself: the columns a of both are equal, and b of the second is 'x'.
fn joined(alloc: Global) -> Result<Tree, NoMemory>
    ensures { IfOk result (λ tree. tree ≡ trees.joined) }
{
    let leaves = two_leaves(alloc)?;
    let conds = conjuncts(alloc)?;
    Ok(Tree::Block { leaves, conds })
}

fn joined_memo(alloc: Global) -> Result<Memo, NoMemory> {
    let appliance = with_table(alloc, Placing::Hash(0))?;
    let tree = joined(alloc)?;
    initial(alloc, &tree, appliance.catalog())
}

fn counted_memo(alloc: Global) -> Result<Memo, NoMemory> {
    let appliance = with_table(alloc, Placing::Hash(0))?;
    let tree = counted(alloc)?;
    initial(alloc, &tree, appliance.catalog())
}

// The table t with 1,000 rows.
fn default_book(alloc: Global) -> Result<StatsBook, NoMemory> {
    let appliance = with_table(alloc, Placing::Hash(0))?;
    let name = Str::from_text(alloc, "t")?;
    let mut book = StatsBook::new(alloc);
    if let Some(table) = appliance.catalog().table(&name) {
        book.put(alloc, &name, default_stats(alloc, table)?)?;
    }
    Ok(book)
}

fn check_size(rt: &impl Abort, memo: &Memo, book: &StatsBook, number: u32, rows: u64, width: u32) {
    let nodes = NodeCount::new(4).unwrap();
    assert!(rt; (number as usize) < memo.groups().len());
    let size = size_of(memo, GroupId(number), book, nodes);
    assert!(rt; size == Size { rows, width });
}

#[test]
fn a_count_over_a_table_has_these_sizes(rt: HostRuntime) -> Result<(), Fail> {
    let memo = counted_memo(rt.alloc())?;
    let book = default_book(rt.alloc())?;
    check_size(&rt, &memo, &book, 0, 1_000, 1);
    check_size(&rt, &memo, &book, 1, 4, 16);
    check_size(&rt, &memo, &book, 2, 1, 8);
    check_size(&rt, &memo, &book, 3, 1, 8);
    Ok(())
}

// The second group of the second leaf stands before that of both leaves.
#[test]
fn a_join_of_two_tables_has_these_sizes(rt: HostRuntime) -> Result<(), Fail> {
    let memo = joined_memo(rt.alloc())?;
    let book = default_book(rt.alloc())?;
    check_size(&rt, &memo, &book, 0, 1_000, 40);
    check_size(&rt, &memo, &book, 1, 1_000, 40);
    check_size(&rt, &memo, &book, 2, 10, 40);
    check_size(&rt, &memo, &book, 3, 100, 80);
    Ok(())
}
