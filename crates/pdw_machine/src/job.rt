ghost use Rattle.std.specs.Prelude.{◌≡◌, ◌≤◌};
ghost use Rattle.pdw_base.specs.Schema.{cell};
ghost use Rattle.pdw_move.specs.Move.{receivers};

use pdw_base::{Node, NodeCount, Row, Schema};
use pdw_move::{Move, Receivers, targets};
use std::marker::Model;

/// Which move a transfer makes, of rows with which columns, among how many compute nodes.
#[derive(Drop)]
pub struct Job {
    mv: Move,
    schema: Schema,
    nodes: NodeCount,
}

impl Model for Job {
    ghost use Rattle.pdw_machine.specs.Machine.{Job as JobState};

    ghost Value = { JobState };

    ghost view = { λ j. record { mv = j.mv; columns = j.schema; nodes = j.nodes } };
}

impl Job {
    pub fn new(mv: Move, schema: Schema, nodes: NodeCount) -> Job
        ensures { result ≡ record { mv = mv; columns = schema; nodes = nodes } }
    {
        Job { mv, schema, nodes }
    }

    pub fn nodes(&self) -> NodeCount
        ensures { result ≡ self.now.nodes }
    {
        self.nodes
    }

    /// Where a row goes that stands at a source.
    pub fn targets(&self, row: &Row, source: Node) -> Receivers
        ensures { result ≡ receivers self.now.nodes self.now.mv source (cell self.now.columns row.now) }
    {
        targets(&self.mv, &self.schema, row, source, self.nodes)
    }
}
