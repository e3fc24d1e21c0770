//! The limits of plan files: what is planned for a judged query keeps them.
#![tactic(auto)]

mod laws;

pub use laws::{planned_files_have_small_numbers, planned_files_keep_their_limits};
