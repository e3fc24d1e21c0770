ghost use Rattle.std.specs.Prelude.{◌≡◌};
ghost use Rattle.pdw_move.specs.Move.{property_after, property_before, reaches};

use pdw_base::{ColId, Node, NodeCount};

/// How rows stand at the nodes.
#[derive(Clone, Copy, PartialEq, Eq)]
pub enum Prop {
    /// The compute nodes have them together.
    Spread,
    /// As spread, and each row is at the node that the hash of this column gives.
    Hash(ColId),
    /// Each compute node has them all.
    Replicated,
    /// The first compute node has them all, and no other has a row.
    Single,
    /// The control node has them all.
    Control,
}

/// A movement of rows between the nodes.
#[derive(Clone, Copy, PartialEq, Eq)]
pub enum Move {
    /// Each row goes to the node that the hash of this column gives.
    Shuffle(ColId),
    /// The compute nodes' rows go to the first compute node.
    ToSingle,
    /// The compute nodes' rows go to the control node.
    ToControl,
    /// Each compute node's rows go to every compute node.
    Broadcast,
    /// Each node keeps those of its rows that the hash of this column places there.
    Trim(ColId),
    /// The control node's rows go to every compute node.
    FromControl,
    /// The first compute node's rows go to every compute node.
    FromSingle,
}

/// Which nodes a row goes to.
#[derive(Clone, Copy, PartialEq, Eq)]
pub enum Receivers {
    Nobody,
    One(Node),
    AllCompute,
}

impl Move {
    /// How rows stand that this moves.
    pub fn from(&self) -> Prop
        ensures { result ≡ property_before self.now }
    {
        match self {
            Move::Shuffle(_) | Move::ToSingle | Move::ToControl | Move::Broadcast => Prop::Spread,
            Move::Trim(_) => Prop::Replicated,
            Move::FromControl => Prop::Control,
            Move::FromSingle => Prop::Single,
        }
    }

    /// How they stand afterwards.
    pub fn to(&self) -> Prop
        ensures { result ≡ property_after self.now }
    {
        match self {
            Move::Shuffle(column) | Move::Trim(column) => Prop::Hash(*column),
            Move::ToSingle => Prop::Single,
            Move::ToControl => Prop::Control,
            Move::Broadcast | Move::FromControl | Move::FromSingle => Prop::Replicated,
        }
    }
}

impl Receivers {
    /// Whether a node is among them, where there are so many compute nodes.
    pub fn reaches(&self, nodes: NodeCount, target: Node) -> bool
        ensures { result ≡ reaches nodes self.now target }
    {
        match (self, target) {
            (Receivers::Nobody, _) => false,
            (Receivers::One(Node::Compute(place)), Node::Compute(number)) => *place == number,
            (Receivers::One(Node::Control), Node::Control) => true,
            (Receivers::AllCompute, Node::Compute(number)) => number < nodes.get(),
            _ => false,
        }
    }
}
