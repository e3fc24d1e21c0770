//! What a plan is cut into.

use pdw_algebra::LocalTree;
use pdw_base::Schema;
use pdw_move::Move;
use sqlite_items::Items;

/// The nodes at which a local tree runs.
#[derive(Clone, Copy, PartialEq, Eq)]
pub enum Site {
    /// Every compute node.
    All,
    /// The first compute node alone.
    First,
    /// The control node alone.
    Control,
}

/// A local tree that runs at a site, and the move of its rows into a temporary table.
#[derive(Drop)]
pub struct Step {
    pub tree: LocalTree,
    /// The columns of the tree's rows, by rising numbers.
    pub schema: Schema,
    pub site: Site,
    pub mv: Move,
    /// The temporary table's number, from 1.
    pub to: u32,
}

/// The steps of a plan, in the order in which they run, and the tree whose rows are returned to the client from its site.
#[derive(Drop)]
pub struct Steps {
    pub moves: Items<Step>,
    pub last: LocalTree,
    pub last_site: Site,
}
