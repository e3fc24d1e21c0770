//! The memo of a tree.

ghost use Rattle.std.specs.Prelude.{◌≡◌, map, sum, true, fold, IfOk, OnOk};
ghost use Rattle.std.specs.List.{list_all};
ghost use Rattle.pdw_algebra.specs.Shape.{shape_of};
ghost use Rattle.pdw_groups.specs.Memo.{all_written, memo_of};
ghost use Rattle.pdw_memo.specs.Building as spec;
ghost use Rattle.pdw_memo.specs.Memo.{IsPlannable, node_count};

use crate::Memo;
use crate::block::{add_joins, last_side};
use crate::building::Building;
use crate::operators::{add_filter, add_grouping, add_join, add_project, add_scan};
use pdw_algebra::Tree;
use pdw_base::{ColId, NoMemory};
use pdw_catalog::Catalog;
use pdw_groups::{Side, useful_columns};
use std::alloc::Global;

// Adds the leaves of a block, and answers their own groups.
#[cycle(tree)]
fn add_leaves(
    alloc: Global,
    building: &mut Building,
    useful: &[ColId],
    leaves: &[Tree],
    catalog: &Catalog,
) -> Result<Vec<Side>, NoMemory>
    requires sound { list_all (λ leaf. leaf.sound) (map (shape_of catalog.now) leaves.now) ≡ true }
    requires room { spec.HasRoom building.old (sum (map node_count leaves.now)) }
    ensures nodes { OnOk result (building.new ≡ fold (spec.with_node useful.now) building.old (map (spec.written catalog.now) leaves.now)) }
    ensures sides { IfOk result (λ sides. sides.items ≡ spec.sides_of catalog.now building.old leaves.now) }
{
    let mut sides = Vec::new(alloc);
    for leaf in leaves {
        add_tree(alloc, building, useful, leaf, catalog)?;
        sides.push(last_side(alloc, building, leaf, catalog)?)?;
    }
    Ok(sides)
}

// Adds the groups and the blocks of a tree, children first.
#[cycle(tree)]
fn add_tree(
    alloc: Global,
    building: &mut Building,
    useful: &[ColId],
    tree: &Tree,
    catalog: &Catalog,
) -> Result<(), NoMemory>
    requires sound { (shape_of catalog.now tree.now).sound ≡ true }
    requires room { spec.HasRoom building.old (node_count tree.now) }
    ensures { OnOk result (building.new ≡ spec.with_tree catalog.now useful.now building.old tree.now) }
{
    match tree {
        Tree::Scan { table, alias, cols } => {
            let cols = cols.as_slice();
            add_scan(alloc, building, useful, tree, table, alias, cols, catalog)
        }
        Tree::Filter { conds, child } => {
            add_tree(alloc, building, useful, child.get(), catalog)?;
            add_filter(alloc, building, useful, tree, conds.as_slice(), catalog)
        }
        Tree::Project { items, child } => {
            add_tree(alloc, building, useful, child.get(), catalog)?;
            add_project(alloc, building, useful, tree, items.as_slice(), catalog)
        }
        Tree::Block { leaves, conds } => {
            let sides = add_leaves(alloc, building, useful, leaves.as_slice(), catalog)?;
            add_joins(alloc, building, useful, sides.as_slice(), conds.as_slice())
        }
        Tree::Join {
            kind,
            conds,
            left,
            right,
        } => {
            add_tree(alloc, building, useful, left.get(), catalog)?;
            let first = building.last_group();
            add_tree(alloc, building, useful, right.get(), catalog)?;
            let conds = conds.as_slice();
            add_join(alloc, building, useful, tree, *kind, conds, first, catalog)
        }
        Tree::GroupBy { keys, aggs, child } => {
            let child = child.get();
            add_tree(alloc, building, useful, child, catalog)?;
            let keys = keys.as_slice();
            let aggs = aggs.as_slice();
            add_grouping(alloc, building, useful, tree, keys, aggs, child, catalog)
        }
    }
}

/// The memo of a tree, in which every block is joined as it is written.
pub fn initial(alloc: Global, tree: &Tree, catalog: &Catalog) -> Result<Memo, NoMemory>
    requires { IsPlannable catalog.now tree.now }
    ensures { IfOk result (λ memo. memo ≡ memo_of catalog.now all_written tree.now) }
{
    let useful = useful_columns(alloc, tree, catalog)?;
    let mut building = Building::new(alloc);
    add_tree(alloc, &mut building, useful.as_slice(), tree, catalog)?;
    let Building { groups, blocks, .. } = building;
    Ok(Memo::from_parts(groups, blocks))
}
