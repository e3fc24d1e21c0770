//! What moves of the rows of all groups cost.

ghost use Rattle.std.specs.Prelude.{◌≡◌, ℕ, ◌<◌, ◌≤◌, ◌^◌};
ghost use Rattle.pdw_groups.specs.declared.key.GroupId.{GroupId as Number};
ghost use Rattle.pdw_move.specs.Cost.{AreInRange, cost_of_move};
ghost use Rattle.pdw_move.specs.declared.cost.Constants.{Constants as ConstantsValue};
ghost use Rattle.pdw_move.specs.declared.cost.Flow.{Flow as FlowValue};
ghost use Rattle.pdw_move.specs.declared.kinds.Move.{Move as MoveValue};
ghost use Rattle.std.specs.List.{slice_get};
ghost use Rattle.pdw_ways.specs.Costing.{AreReckoned, costs_by, flow_or_none, most_of_a_move};

use crate::Reckoning;
use pdw_base::NodeCount;
use pdw_groups::GroupId;
use pdw_move::{Constants, Flow};
use sqlite_items::at;

/// What moves in a memo are reckoned with.
#[derive(Drop)]
pub struct Costing<'a> {
    /// The flow of each group, by number.
    pub flows: &'a [Flow],
    /// How many compute nodes there are.
    pub n: NodeCount,
    pub constants: &'a Constants,
}

/// The law of what moves cost: less than 2^97, where at most 10^12 rows flow, however wide.
pub fn each_move_costs_little()
    ensures { (n : ℕ) (constants : ConstantsValue) (move : MoveValue) (flow : FlowValue) → 1 ≤ n → n ≤ 16 → AreInRange constants
        → flow.rows ≤ 1000000000000 → flow.width < 2 ^ 32 → cost_of_move n constants move flow < most_of_a_move }
{}

// The flow of a group. Nothing flows where there is none.
fn flow_of(flows: &[Flow], group: GroupId) -> Flow
    requires rows { AreReckoned flows.now }
    ensures flow { result ≡ flow_or_none (slice_get flows.now group.0) }
    ensures rows { result.rows ≤ 1000000000000 }
{
    match at(flows, group.0 as usize) {
        Some(flow) => *flow,
        None => Flow { rows: 0, width: 0 },
    }
}

impl Costing<'_> {
    /// The law of what moves are reckoned to cost: each costs less than 2^97.
    pub fn each_move_is_cheap(&self)
        requires rows { AreReckoned self.now.flows.now }
        requires constants { AreInRange self.now.constants.now }
        ensures { (group : Number) (move : MoveValue) → costs_by self.now.n self.now.constants.now self.now.flows.now group move < most_of_a_move }
    {
        let _count = self.n.get();
    }

    /// What moves of a group's rows are reckoned with.
    pub fn at(&self, group: GroupId) -> Reckoning<'_>
        requires rows { AreReckoned self.now.flows.now }
        ensures flow { result.flow ≡ flow_or_none (slice_get self.now.flows.now group.0) }
        ensures rows { result.flow.rows ≤ 1000000000000 }
        ensures nodes { result.n ≡ self.now.n }
        ensures constants { result.constants.now ≡ self.now.constants.now }
    {
        Reckoning {
            flow: flow_of(self.flows, group),
            n: self.n,
            constants: self.constants,
        }
    }
}
