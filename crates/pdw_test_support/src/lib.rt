//! What the tests of several crates share: cases that write long texts in short, and sessions after a script.
#![tactic(auto)]

mod cases;
mod sessions;

pub use cases::expanded;
pub use sessions::{executed, session_after, statements_of};
