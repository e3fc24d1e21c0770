//! Transfers: moves of rows between nodes, in any order of events.
#![tactic(auto)]

mod finished;
pub mod laws;
mod picker;
mod schedule;
mod transfer;

pub use finished::{Finished, drive};
pub use pdw_machine::Event;
pub use picker::{PickCall, Picker};
pub use schedule::{Fixed, Schedule};
pub use transfer::Transfer;
