use pdw_base::Bag;
use sqlite_items::Items;

/// Rows at each node: a bag for each compute node, in order, and one for the control node.
#[derive(Drop)]
pub struct Placed {
    pub nodes: Items<Bag>,
    pub control: Bag,
}
