//! Plan files: the texts of plans with their bounds and costs, written and read.
#![tactic(auto)]

mod bounds;
mod file;
mod keys;
mod laws;
mod line;
mod lines;
mod nodes;
mod numerals;
mod reading;
mod stack;
mod words;
mod writing;

pub use file::{JsonFault, Place, PlanFile};
pub use laws::written_files_read_back;
pub use reading::from_text;
pub use writing::to_text;
