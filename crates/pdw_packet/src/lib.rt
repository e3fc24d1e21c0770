//! Packets: what a transfer carries from node to node.
#![tactic(auto)]

mod packet;

pub use packet::{MOST_ROWS, Packet};
