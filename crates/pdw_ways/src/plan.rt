use pdw_groups::GroupId;
use pdw_move::{Move, Prop};
use sqlite_items::{Boxed, Items};

/// A plan: how the rows of a group are made and placed. Its nodes are numbered from 0, children first.
#[derive(Drop)]
pub enum Plan {
    /// The scan of a group.
    Scan {
        group: GroupId,
        prop: Prop,
    },
    /// An operator of a group, applied at each node to what the children make there.
    Op {
        group: GroupId,
        prop: Prop,
        children: Items<Plan>,
    },
    /// A move of the rows that the child makes.
    Moved {
        mv: Move,
        child: Boxed<Plan>,
    },
    /// A change of property in which no row moves.
    Free {
        to: Prop,
        child: Boxed<Plan>,
    },
}

/// For each group of a memo, by number, and each of its properties, in their order, a bound on what it costs to make its
/// rows under that property. None is unreachable: greater than every number.
#[derive(Drop)]
pub struct Bounds {
    pub lists: Items<Items<Option<u128>>>,
}

/// The first node of a plan, children first, that no scan, expression of its group, move or free change allows; or the last
/// node, where its group is not the root.
#[derive(Clone, Copy, Debug, PartialEq, Eq)]
pub struct PlanFault {
    /// The node's number, from 0.
    pub node: u32,
}

/// Why a plan is not accepted with the cost and the bounds that are given beside it. The first of these that is there, in
/// this order.
#[derive(Clone, Copy, PartialEq, Eq)]
pub enum CheckFault {
    /// The plan is none for the query: its first node, children first, that no way allows, or the last, where its group is not
    /// the root.
    PlanShape {
        node: u32,
    },
    /// The plan costs something else.
    WrongCost {
        written: u128,
        computed: u128,
    },
    /// The first group, by number, whose list of bounds is missing, surplus or of another length than its properties.
    BoundShape {
        group: u32,
    },
    /// The first bound, by group and property, that exceeds what the bounds of the children and the cost of a move add up to
    /// for some way; `limit` is the least such sum.
    BoundTooHigh {
        group: u32,
        prop: Prop,
        bound: Option<u128>,
        limit: u128,
    },
    /// The least bound of the root is not the cost.
    NotTight {
        cost: u128,
        bound: Option<u128>,
    },
}
