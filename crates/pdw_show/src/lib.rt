//! The texts that a script prints: what statements answer, and why they are refused. Each line ends with a line feed.
#![tactic(auto)]

mod answer;
mod plan;
mod profile;
mod refusal;
mod rows;
mod verdict;
mod words;

pub use answer::show_answer;
pub use refusal::{Code, show_refusal};
pub use rows::push_rows;
