ghost use Rattle.std.specs.Prelude.{◌≡◌, ◌≤◌};
ghost use Rattle.pdw_machine.specs.Machine.{place};
ghost use Rattle.pdw_machine.specs.Ready.{node_at};

use pdw_base::{Node, NodeCount};

/// One step of a transfer.
#[derive(Clone, Copy, PartialEq, Eq)]
pub enum Event {
    /// The source's first unread row goes into the packets to its receivers.
    Read(Node),
    /// The packet that is filled from the first to the second node goes on the link between them.
    Flush(Node, Node),
    /// The link's first packet goes into the second node's inbox.
    Deliver(Node, Node),
    /// The rows of the inbox's first packet are written.
    Copy(Node),
}

/// Where a node stands in the order of the nodes, the control node last. A node that is not there stands beyond all.
pub(crate) fn place(nodes: NodeCount, node: Node) -> usize
    ensures { result ≡ place nodes node }
{
    let count = nodes.get();
    match node {
        Node::Compute(number) if number < count => number as usize,
        Node::Compute(number) => number as usize + 1,
        Node::Control => count as usize,
    }
}

/// The node at a place.
pub(crate) fn node_at(nodes: NodeCount, at: usize) -> Node
    ensures { result ≡ node_at nodes at }
{
    let count = nodes.get();
    if at < count as usize {
        Node::Compute(at as u32)
    } else {
        Node::Control
    }
}
