//! Groups and output columns: SQL-92, 7.7 to 7.9.

ghost use Rattle.std.specs.Prelude.{◌≡◌, ◌==◌, map, IfOk};
ghost use Rattle.std.specs.List.{list_any};
ghost use Rattle.pdw_algebra.specs.declared.tree.Tree.TheVariants as tree;
ghost use Rattle.pdw_bind.specs.Bind as spec;
ghost use Rattle.pdw_form.specs.Columns as columns;

use pdw_algebra::{Tree, aggs_copy, conds_copy, make_copy};
use pdw_base::{ColId, NoMemory};
use pdw_expr::{Agg, Cond, Scalar};
use pdw_form::{JGroup, JItem};
use sqlite_items::{Boxed, Items};
use std::alloc::Global;

fn has_number(numbers: &[ColId], number: ColId) -> bool
    ensures { result ≡ list_any (λ other. other.0 == number.0) numbers.now }
{
    numbers.iter().any(|other| other.0 == number.0)
}

fn with_number(before: Items<ColId>, number: ColId) -> Result<Items<ColId>, NoMemory>
    ensures { IfOk result (λ more. more ≡ columns.new_number before number) }
{
    let mut numbers = before;
    if !has_number(numbers.as_slice(), number) {
        numbers.push(number)?;
    }
    Ok(numbers)
}

fn each_number_once(alloc: Global, numbers: &[ColId]) -> Result<Items<ColId>, NoMemory>
    ensures { IfOk result (λ once. once ≡ columns.each_number_once numbers.now) }
{
    let mut once = Items::new(alloc);
    for number in numbers {
        once = with_number(once, *number)?;
    }
    Ok(once)
}

fn has_item(items: &[(ColId, Option<Scalar>)], number: ColId) -> bool
    ensures { result ≡ list_any (λ other. other.0.0 == number.0) items.now }
{
    items.iter().any(|other| other.0.0 == number.0)
}

fn with_item(
    alloc: Global,
    before: Items<(ColId, Option<Scalar>)>,
    item: &JItem,
) -> Result<Items<(ColId, Option<Scalar>)>, NoMemory>
    ensures { IfOk result (λ more. more ≡ columns.new_item before item.now) }
{
    let mut items = before;
    if !has_item(items.as_slice(), item.out) {
        items.push((item.out, make_copy(alloc, &item.make)?))?;
    }
    Ok(items)
}

fn each_item_once(
    alloc: Global,
    items: &[JItem],
) -> Result<Items<(ColId, Option<Scalar>)>, NoMemory>
    ensures { IfOk result (λ once. once ≡ columns.each_item_once items.now) }
{
    let mut once = Items::new(alloc);
    for item in items {
        once = with_item(alloc, once, item)?;
    }
    Ok(once)
}

fn item_numbers(alloc: Global, items: &[JItem]) -> Result<Items<ColId>, NoMemory>
    ensures { IfOk result (λ numbers. numbers ≡ map (λ item. item.out) items.now) }
{
    let mut numbers = Items::new(alloc);
    for item in items {
        numbers.push(item.out)?;
    }
    Ok(numbers)
}

fn group_by(alloc: Global, keys: &[ColId], aggs: Items<Agg>, child: Tree) -> Result<Tree, NoMemory>
    ensures { IfOk result (λ made. made ≡ tree.GroupBy (columns.each_number_once keys.now) aggs child) }
{
    let keys = each_number_once(alloc, keys)?;
    let child = Boxed::new(alloc, child)?;
    Ok(Tree::GroupBy { keys, aggs, child })
}

// The groups that HAVING keeps, where it is written.
fn filtered(alloc: Global, having: Items<Cond>, child: Tree) -> Result<Tree, NoMemory>
    ensures { IfOk result (λ made. made ≡ spec.filtered having child) }
{
    if having.is_empty() {
        return Ok(child);
    }
    let child = Boxed::new(alloc, child)?;
    Ok(Tree::Filter {
        conds: having,
        child,
    })
}

/// The groups of a tree's rows, where the query is grouped.
pub fn grouped(alloc: Global, group: &Option<JGroup>, child: Tree) -> Result<Tree, NoMemory>
    ensures { IfOk result (λ made. made ≡ spec.grouped group.now child) }
{
    match group {
        Some(group) => {
            let aggs = aggs_copy(alloc, group.aggs.as_slice())?;
            let having = conds_copy(alloc, group.having.as_slice())?;
            let groups = group_by(alloc, group.keys.as_slice(), aggs, child)?;
            filtered(alloc, having, groups)
        }
        None => Ok(child),
    }
}

/// The output columns.
pub fn projected(alloc: Global, items: &[JItem], child: Tree) -> Result<Tree, NoMemory>
    ensures { IfOk result (λ made. made ≡ tree.Project (columns.each_item_once items.now) child) }
{
    let items = each_item_once(alloc, items)?;
    let child = Boxed::new(alloc, child)?;
    Ok(Tree::Project { items, child })
}

/// The rows each once, where DISTINCT is written.
pub fn distinct_if(
    alloc: Global,
    distinct: bool,
    items: &[JItem],
    child: Tree,
) -> Result<Tree, NoMemory>
    ensures { IfOk result (λ made. made ≡ spec.distinct_if distinct items.now child) }
{
    if !distinct {
        return Ok(child);
    }
    let numbers = item_numbers(alloc, items)?;
    group_by(alloc, numbers.as_slice(), Items::new(alloc), child)
}
