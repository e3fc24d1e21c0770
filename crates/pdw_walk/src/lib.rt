//! The walk through a statement: what it keeps, the faults that it finds, and the definitions of the judgement.
#![tactic(auto)]

mod entry;
mod fault;

pub use entry::{
    Column, Conjuncts, Draft, Element, Entry, Met, Numbered, Outputs, Role, Slot, Typed, Walked,
};
pub use fault::{
    JudgeFault, LimitName, MOST_BUDGET, MOST_COST, MOST_ITEMS, MOST_QUERIES, MOST_REFERENCES,
    MOST_STATISTIC, MOST_USED, MOST_WIDTH, limits_of_settings_are_these,
    limits_of_statements_are_these,
};
