ghost use Rattle.std.specs.Prelude.{◌≡◌};
ghost use Rattle.pdw_answer.specs.Words as spec;

use pdw_base::Str;
use pdw_move::{Move, Prop};
use sqlite_items::Items;

/// What a node of a plan does, as a line says it.
#[derive(Clone, Copy)]
pub enum PlanWord {
    Scan,
    Filter,
    Project,
    /// An inner join.
    Join,
    /// A left join.
    Left,
    /// A full join.
    Full,
    /// A join that keeps the left rows that have a partner.
    Semi,
    /// A join that keeps the left rows that have none.
    Anti,
    Group,
    /// What is kept of the parts of groups.
    Partial,
    /// Whole groups from what is kept of their parts.
    Final,
    /// A free change of property.
    Free,
    Shuffle,
    ToSingle,
    ToControl,
    Broadcast,
    Trim,
    FromControl,
    FromSingle,
}

/// The word of a move.
pub fn word_of_move(mv: Move) -> PlanWord
    ensures { result ≡ spec.word_of_move mv }
{
    match mv {
        Move::Shuffle(_) => PlanWord::Shuffle,
        Move::ToSingle => PlanWord::ToSingle,
        Move::ToControl => PlanWord::ToControl,
        Move::Broadcast => PlanWord::Broadcast,
        Move::Trim(_) => PlanWord::Trim,
        Move::FromControl => PlanWord::FromControl,
        Move::FromSingle => PlanWord::FromSingle,
    }
}

/// What a move is reckoned to move, and what it costs.
#[derive(Clone, Copy)]
pub struct MoveFlow {
    pub rows: u64,
    /// The bytes of a row.
    pub width: u32,
    pub cost: u128,
}

/// The line of a node of a plan.
#[derive(Drop)]
pub struct PlanLine {
    /// How many nodes are above it.
    pub depth: u32,
    pub word: PlanWord,
    /// The number of the node's group.
    pub group: u32,
    /// Of a scan alone: the alias of the table, or its name where none is written.
    pub alias: Option<Str>,
    /// How the rows stand that the node makes.
    pub prop: Prop,
    /// Of a move alone.
    pub flow: Option<MoveFlow>,
}

/// A plan as lines, each node before its children.
#[derive(Drop)]
pub struct PlanText {
    /// What the plan costs.
    pub cost: u128,
    pub lines: Items<PlanLine>,
}
