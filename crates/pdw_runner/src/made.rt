//! The rows of a local tree at the nodes of its site.

ghost use Rattle.std.specs.Prelude.{◌≡◌, IfOk, length, map};
ghost use Rattle.pdw_base.specs.SameBag.{SameBag};
ghost use Rattle.pdw_base.specs.Schema.{cell};
ghost use Rattle.pdw_dsql.specs.Sites as at_site;
ghost use Rattle.pdw_runner.specs.Starts.{ArePlaced};
ghost use Rattle.pdw_runner.specs.Tables.{columns_over, rows_over};

use crate::temporaries::Temporaries;
use pdw_algebra::LocalTree;
use pdw_base::{Bag, NoMemory, Node};
use pdw_catalog::Appliance;
use pdw_dsql::Site;
use pdw_exec::run_local;
use pdw_move::Placed;
use sqlite_items::Items;
use std::alloc::Global;

fn is_within(site: Site, node: Node) -> bool
    ensures { result ≡ at_site.is_within site node }
{
    match (site, node) {
        (Site::All, Node::Compute(_)) => true,
        (Site::First, Node::Compute(number)) => number == 0,
        (Site::Control, Node::Control) => true,
        _ => false,
    }
}

// The rows of a tree at a node, none outside its site.
fn made_at(
    alloc: Global,
    appliance: &Appliance,
    temps: &Temporaries,
    tree: &LocalTree,
    site: Site,
    node: Node,
) -> Result<Bag, NoMemory>
    ensures { IfOk result (λ bag. SameBag (map (cell (columns_over appliance.now temps.now tree.now)) bag) (at_site.made_within site (rows_over appliance.now temps.now tree.now) node)) }
{
    if is_within(site, node) {
        let schemas = temps.schemas.as_slice();
        run_local(
            alloc,
            tree,
            appliance,
            temps.placed.as_slice(),
            schemas,
            node,
        )
    } else {
        Ok(Bag::new(alloc))
    }
}

/// The rows of a tree at each node, none outside its site.
pub(crate) fn made(
    alloc: Global,
    appliance: &Appliance,
    temps: &Temporaries,
    tree: &LocalTree,
    site: Site,
) -> Result<Placed, NoMemory>
    ensures nodes { IfOk result (λ placed. length placed.nodes ≡ appliance.now.nodes) }
    ensures rows { IfOk result (λ placed. ArePlaced appliance.now.nodes (columns_over appliance.now temps.now tree.now) placed (at_site.made_within site (rows_over appliance.now temps.now tree.now))) }
{
    let mut nodes = Items::new(alloc);
    for number in 0..appliance.nodes().get() {
        let node = Node::Compute(number);
        nodes.push(made_at(alloc, appliance, temps, tree, site, node)?)?;
    }
    let control = made_at(alloc, appliance, temps, tree, site, Node::Control)?;
    Ok(Placed { nodes, control })
}
