//! What a move of the rows of one group costs.

ghost use Rattle.std.specs.Prelude.{◌≡◌, ◌<◌, ◌≤◌};
ghost use Rattle.pdw_move.specs.Cost.{AreInRange};
ghost use Rattle.pdw_ways.specs.Costing.{adds_by, most_of_a_move};

use pdw_base::NodeCount;
use pdw_move::{Constants, Flow, Move, move_cost};

/// What moves of the rows of one group are reckoned with.
#[derive(Drop)]
pub struct Reckoning<'a> {
    /// How many rows the group has, and how wide they are.
    pub flow: Flow,
    /// How many compute nodes there are.
    pub n: NodeCount,
    pub constants: &'a Constants,
}

// What a move of a flow among n compute nodes costs.
#[tactic(auto, using(crate::proofs::CostLemmas::move_small))]
fn cost_of(flow: Flow, n: NodeCount, constants: &Constants, mv: Move) -> u128
    requires rows { flow.rows ≤ 1000000000000 }
    requires constants { AreInRange constants.now }
    ensures value { result ≡ adds_by n constants.now flow mv }
    ensures most { result < most_of_a_move }
{
    let _count = n.get();
    move_cost(&mv, flow, n, constants)
}

impl Reckoning<'_> {
    /// What a move of the group's rows adds to the cost of a plan.
    pub fn move_adds(&self, mv: Move) -> u128
        requires rows { self.now.flow.rows ≤ 1000000000000 }
        requires constants { AreInRange self.now.constants.now }
        ensures value { result ≡ adds_by self.now.n self.now.constants.now self.now.flow mv }
        ensures most { result < most_of_a_move }
    {
        cost_of(self.flow, self.n, self.constants, mv)
    }
}
