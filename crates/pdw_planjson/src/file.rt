use pdw_ways::{Bounds, Plan};

/// What a plan file holds.
#[derive(Drop)]
pub struct PlanFile {
    pub plan: Plan,
    /// For each group, by number, and each of its properties, in their order, a bound on the cost.
    pub bounds: Bounds,
    /// The cost of the plan, as the file says it.
    pub cost: u128,
}

/// A place of a plan file.
#[derive(Clone, Copy, Debug, PartialEq, Eq)]
pub enum Place {
    /// The file as a whole: its keys, its version, its cost, and its lists as lists.
    Top,
    /// The node of this number, from 0.
    Node(u32),
    /// The list of bounds of this number, from 0.
    Bound(u64),
}

/// Why bytes are no plan file.
#[derive(Clone, Copy, Debug, PartialEq, Eq)]
pub enum JsonFault {
    /// They are not UTF-8, or no JSON.
    NotJson,
    /// This place is the first that breaks a rule of plan files.
    Shape { place: Place },
    /// A call could not have the memory that it asked for.
    Memory,
}
