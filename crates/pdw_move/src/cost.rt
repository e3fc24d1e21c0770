ghost use Rattle.std.specs.Prelude.{◌≡◌, ℕ, ◌*◌, ◌^◌, ◌<◌, ◌≤◌, max};
ghost use Rattle.std.specs.Int.{div_ceil};
ghost use Rattle.pdw_move.specs.Cost.{AreInRange, bytes_of, cost_of_move, greatest, parts_of};
ghost use Rattle.pdw_move.specs.declared.kinds.Move.{Move as MoveValue};
ghost use Rattle.pdw_move.specs.declared.cost.Constants.{Constants as ConstantsValue};
ghost use Rattle.pdw_move.specs.declared.cost.Flow.{Flow as FlowValue};

use crate::Move;
use pdw_base::NodeCount;

/// The greatest number of rows that a move is reckoned with.
pub const MOST_FLOW_ROWS: u64 = 1_000_000_000_000;

/// The greatest width of the rows of a statement, in bytes: 128 columns of 1,000 bytes.
pub const MOST_FLOW_WIDTH: u32 = 128_000;

/// The greatest cost constant. The least is 1.
pub const MOST_CONSTANT: u32 = 1_000;

/// The limits of what moves are reckoned with.
pub fn limits_of_costs_are_these()
    ensures rows { MOST_FLOW_ROWS ≡ 1000000000000 }
    ensures width { MOST_FLOW_WIDTH ≡ 128000 }
    ensures constants { MOST_CONSTANT ≡ 1000 }
{}

/// What a byte costs in each part of a move.
#[derive(Clone, Copy, PartialEq, Eq)]
pub struct Constants {
    /// To read it.
    pub reader: u32,
    /// To read it and hash its row.
    pub hash_reader: u32,
    /// To send it.
    pub network: u32,
    /// To write it.
    pub writer: u32,
    /// To copy it into the temporary table.
    pub bulk: u32,
    /// How many times as much the control node takes.
    pub control: u32,
}

/// How much a move moves.
#[derive(Clone, Copy, PartialEq, Eq)]
pub struct Flow {
    pub rows: u64,
    /// The bytes of a row.
    pub width: u32,
}

// What the four parts of a move cost.
#[derive(Clone, Copy, PartialEq, Eq)]
struct Parts {
    reader: u128,
    network: u128,
    writer: u128,
    bulk: u128,
}

impl Constants {
    /// The constants of an appliance on which none was set.
    pub fn defaults() -> Constants
        ensures { result ≡ record { reader = 1; hash_reader = 2; network = 4; writer = 1; bulk = 3; control = 2 } }
    {
        Constants {
            reader: 1,
            hash_reader: 2,
            network: 4,
            writer: 1,
            bulk: 3,
            control: 2,
        }
    }
}

impl Parts {
    // The parts run side by side, so the slowest counts.
    fn greatest(self) -> u128
        ensures { result ≡ greatest self }
    {
        self.reader
            .max(self.network)
            .max(self.writer)
            .max(self.bulk)
    }
}

/// What a move costs: the greatest of its four parts, each of which is linear in bytes.
pub fn move_cost(mv: &Move, f: Flow, n: NodeCount, k: &Constants) -> u128
    requires rows { f.rows ≤ 1000000000000 }
    requires constants { AreInRange k.now }
    ensures { result ≡ cost_of_move n k.now mv.now f }
{
    let all = u128::from(f.rows) * u128::from(f.width);
    let share = all.div_ceil(u128::from(n.get()));
    four_parts(mv, all, share, n, k).greatest()
}

/// The law of `move_cost`: whatever a statement moves costs less than 10^25.
pub fn each_move_costs_less()
    ensures { (n : ℕ) (k : ConstantsValue) (mv : MoveValue) (f : FlowValue) → 1 ≤ n → n ≤ 16 → AreInRange k
        → f.rows ≤ 1000000000000 → f.width ≤ 128000 → cost_of_move n k mv f < 10 ^ 25 }
{}

// An amount times a factor of at most 1,000.
fn times(amount: u128, factor: u32) -> u128
    requires amount { amount < 2 ^ 112 }
    requires factor { factor ≤ 1000 }
    ensures value { result ≡ amount * factor }
    ensures most { result ≤ amount * 1000 }
{
    amount * u128::from(factor)
}

// The parts of a move of `all` bytes, of which each node has a share.
fn four_parts(mv: &Move, all: u128, share: u128, n: NodeCount, k: &Constants) -> Parts
    requires all { all < 2 ^ 72 }
    requires share { share ≤ all }
    requires constants { AreInRange k.now }
    ensures { result ≡ parts_of n k.now mv.now all share }
{
    match mv {
        Move::Shuffle(_) => Parts {
            reader: times(share, k.hash_reader),
            network: times(share, k.network),
            writer: times(share, k.writer),
            bulk: times(share, k.bulk),
        },
        Move::ToSingle => Parts {
            reader: times(share, k.reader),
            network: times(share, k.network),
            writer: times(all, k.writer),
            bulk: times(all, k.bulk),
        },
        Move::ToControl => Parts {
            reader: times(share, k.reader),
            network: times(share, k.network),
            writer: times(times(all, k.writer), k.control),
            bulk: times(times(all, k.bulk), k.control),
        },
        Move::Broadcast => Parts {
            reader: times(share, k.reader),
            network: times(times(share, n.get()), k.network),
            writer: times(all, k.writer),
            bulk: times(all, k.bulk),
        },
        Move::Trim(_) => Parts {
            reader: times(all, k.hash_reader),
            network: 0,
            writer: times(share, k.writer),
            bulk: times(share, k.bulk),
        },
        Move::FromSingle => Parts {
            reader: times(all, k.reader),
            network: times(times(all, n.get()), k.network),
            writer: times(all, k.writer),
            bulk: times(all, k.bulk),
        },
        Move::FromControl => Parts {
            reader: times(times(all, k.reader), k.control),
            network: times(times(times(all, n.get()), k.network), k.control),
            writer: times(all, k.writer),
            bulk: times(all, k.bulk),
        },
    }
}
