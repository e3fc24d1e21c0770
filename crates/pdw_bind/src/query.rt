//! The tree of a query.

ghost use Rattle.std.specs.Prelude.{◌≡◌, fold, map, IfOk};
ghost use Rattle.pdw_bind.specs.Bind as spec;
ghost use Rattle.pdw_bind.specs.Bind.{bound, trees};

use crate::groups::{distinct_if, grouped, projected};
use crate::leaves::{Part, block, joined, leaf, no_part, scan, together};
use crate::subqueries::subquery_join;
use pdw_algebra::{Tree, conds_copy};
use pdw_base::NoMemory;
use pdw_form::{JFrom, JSub, JudgedQuery};
use sqlite_items::Items;
use std::alloc::Global;

// What an element of FROM adds to the block of its query.
#[cycle(bind)]
#[tactic(auto, unfolding(crate::specs::Bind::bound))]
fn part(alloc: Global, element: &JFrom) -> Result<Part, NoMemory>
    ensures { IfOk result (λ part. part ≡ spec.part element.now) }
{
    match element {
        JFrom::Table { table, alias, cols } => scan(alloc, table, alias, cols.as_slice()),
        JFrom::Derived(query) => {
            let tree = bind(alloc, query.get())?;
            leaf(alloc, tree)
        }
        JFrom::Join {
            word,
            left,
            right,
            on,
        } => {
            let left = part(alloc, left.get())?;
            let right = part(alloc, right.get())?;
            let on = conds_copy(alloc, on.as_slice())?;
            joined(alloc, *word, left, right, on)
        }
    }
}

// What all elements of FROM add.
#[cycle(bind)]
fn parts(alloc: Global, elements: &[JFrom]) -> Result<Part, NoMemory>
    ensures { IfOk result (λ all. all ≡ spec.all_parts (map spec.part elements.now)) }
{
    let mut all = no_part(alloc);
    for element in elements {
        let next = part(alloc, element)?;
        all = together(all, next, Items::new(alloc))?;
    }
    Ok(all)
}

// The tree of a subquery that its join needs, without DISTINCT, and without the items where there are no groups.
#[cycle(bind)]
fn subquery_tree(alloc: Global, query: &JudgedQuery) -> Result<Tree, NoMemory>
    ensures { IfOk result (λ tree. tree ≡ spec.subquery_tree (trees query.now)) }
{
    if query.group.is_some() {
        columns(alloc, query)
    } else {
        rows(alloc, query)
    }
}

// The tree so far with a subquery conjunct.
#[cycle(bind)]
fn subquery(alloc: Global, sub: &JSub, so_far: Tree) -> Result<Tree, NoMemory>
    ensures { IfOk result (λ tree. tree ≡ spec.subquery sub.now so_far) }
{
    let inner = subquery_tree(alloc, &sub.query)?;
    subquery_join(alloc, sub.negated, &sub.left, &sub.query, so_far, inner)
}

// A tree with the subquery conjuncts one after another.
#[cycle(bind)]
fn subqueries(alloc: Global, subs: &[JSub], first: Tree) -> Result<Tree, NoMemory>
    ensures { IfOk result (λ tree. tree ≡ fold (λ so_far join. join so_far) first (map spec.subquery subs.now)) }
{
    let mut tree = first;
    for sub in subs {
        tree = subquery(alloc, sub, tree)?;
    }
    Ok(tree)
}

// FROM and WHERE.
#[cycle(bind)]
fn rows(alloc: Global, query: &JudgedQuery) -> Result<Tree, NoMemory>
    ensures { IfOk result (λ tree. tree ≡ (trees query.now).rows) }
{
    let all = parts(alloc, query.from.as_slice())?;
    let plain = conds_copy(alloc, query.plain.as_slice())?;
    let block = block(all, plain)?;
    subqueries(alloc, query.subs.as_slice(), block)
}

// FROM and WHERE, and then the groups and the output columns.
#[cycle(bind)]
fn columns(alloc: Global, query: &JudgedQuery) -> Result<Tree, NoMemory>
    ensures { IfOk result (λ tree. tree ≡ (trees query.now).columns) }
{
    let rows = rows(alloc, query)?;
    let groups = grouped(alloc, &query.group, rows)?;
    projected(alloc, query.items.as_slice(), groups)
}

/// The tree of a query: FROM and WHERE without what the subqueries need, then the subqueries as joins, then the groups,
/// then the output columns, then DISTINCT. RIGHT is LEFT with the sides exchanged; IN and EXISTS are Semi, and their
/// negations Anti.
#[cycle(bind)]
#[tactic(auto, unfolding(crate::specs::Bind::bound))]
pub fn bind(alloc: Global, q: &JudgedQuery) -> Result<Tree, NoMemory>
    ensures { IfOk result (λ tree. tree ≡ bound q.now) }
{
    let tree = columns(alloc, q)?;
    distinct_if(alloc, q.distinct, q.items.as_slice(), tree)
}
