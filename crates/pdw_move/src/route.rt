ghost use Rattle.std.specs.Prelude.{◌≡◌, ◌<◌};
ghost use Rattle.pdw_base.specs.Hash.{node_for};
ghost use Rattle.pdw_base.specs.Schema.{cell};
ghost use Rattle.pdw_move.specs.Move.{receivers, trimmed};

use crate::{Move, Receivers};
use pdw_base::{ColId, Node, NodeCount, Row, Schema, Value, node_of};

// The compute node that the hash of a column gives.
fn hash_node(column: ColId, schema: &Schema, row: &Row, nodes: NodeCount) -> u32
    ensures node { result ≡ node_for nodes (cell schema.now row.now column) }
    ensures there { result < nodes }
{
    match schema.place(column) {
        None => node_of(&Value::Null, nodes),
        Some(place) => match row.values().get(place) {
            Some(value) => node_of(value, nodes),
            None => node_of(&Value::Null, nodes),
        },
    }
}

/// Where a row goes that stands at `source`. A column that the row lacks counts as NULL.
pub fn targets(mv: &Move, schema: &Schema, row: &Row, source: Node, nodes: NodeCount) -> Receivers
    ensures { result ≡ receivers nodes mv.now source (cell schema.now row.now) }
{
    match mv {
        Move::Shuffle(column) => {
            Receivers::One(Node::Compute(hash_node(*column, schema, row, nodes)))
        }
        Move::ToSingle => Receivers::One(Node::Compute(0)),
        Move::ToControl => Receivers::One(Node::Control),
        Move::Trim(column) => kept(source, hash_node(*column, schema, row, nodes)),
        Move::Broadcast | Move::FromControl | Move::FromSingle => Receivers::AllCompute,
    }
}

// A node keeps the rows that the hash places there.
fn kept(source: Node, place: u32) -> Receivers
    ensures { result ≡ trimmed source place }
{
    match source {
        Node::Compute(number) if number == place => Receivers::One(source),
        _ => Receivers::Nobody,
    }
}
