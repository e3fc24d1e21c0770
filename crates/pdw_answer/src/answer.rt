use crate::PlanText;
use pdw_base::{Node, Row, Str};
use pdw_move::Move;
use pdw_planjson::JsonFault;
use pdw_ways::CheckFault;
use sqlite_items::{Boxed, Items};

/// The rows of a SELECT with the names of its output columns.
#[derive(Drop)]
pub struct Table1 {
    pub names: Items<Str>,
    pub rows: Items<Row>,
}

/// What one move of a plan did.
#[derive(Drop)]
pub struct StepCount {
    pub mv: Move,
    /// How many rows went from a node to a node, by source and then by target, the control node last.
    pub sent: Items<(Node, Node, u64)>,
    /// The number of events of its transfer.
    pub events: u64,
}

/// What a query did when it was executed by its plan.
#[derive(Drop)]
pub struct Profile {
    /// What the plan costs.
    pub cost: u128,
    /// The moves of the plan, in the order in which they were made.
    pub steps: Items<StepCount>,
    pub table: Table1,
}

/// What is found of a plan file.
#[derive(Clone, Copy)]
pub enum PlanVerdict {
    /// It has a least plan for the query, of this cost.
    Accepted(u128),
    /// It is no plan file.
    Json(JsonFault),
    /// Its plan is not accepted with its cost and its bounds.
    Check(CheckFault),
}

/// What a statement answers that was executed.
#[derive(Drop)]
pub enum Answer {
    /// The tables, the statistics or the settings were changed.
    Done,
    /// So many records were loaded.
    Loaded(u64),
    Rows(Table1),
    /// The lines of a plan.
    Plan(PlanText),
    /// The bytes of a plan file.
    Json(Items<u8>),
    Profile(Boxed<Profile>),
    Checked(PlanVerdict),
}
