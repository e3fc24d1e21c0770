//! The world outside: files that are read, and the sink that a text goes to.
//!
//! Code that reads or writes is generic over [`Files`] and [`Sink`]. Their contracts say what a call gives where
//! the bytes are told, and that each call that fails is counted.
#![tactic(auto)]

mod content;
mod disk_files;
mod failed;
mod files;
mod honest_files;
mod honest_sink;
mod kept;
mod mem_files;
mod mem_sink;
mod reading;
mod schedule;
mod sink;
mod std_sink;
mod writing;

pub use disk_files::DiskFiles;
pub use failed::Failed;
pub use files::Files;
pub use honest_files::HonestFiles;
pub use honest_sink::HonestSink;
pub use mem_files::MemFiles;
pub use mem_sink::MemSink;
pub use reading::{ReadStop, read_whole};
pub use sink::Sink;
pub use std_sink::StdSink;
pub use writing::write_whole;
