//! Transfers: the machine that moves rows between nodes by packets, one event after another.
#![tactic(auto)]

mod event;
mod flags;
mod grid;
mod job;
mod lane;
mod machine;
mod pool;
mod ready;
mod sent;
mod source;
mod state;
mod target;

pub use event::Event;
pub use job::Job;
pub use machine::Machine;
