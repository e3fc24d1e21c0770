//! What statements answer, and why they are refused: types that the engine, the texts and the program share.
#![tactic(auto)]

mod answer;
mod plan_text;
mod refusal;

pub use answer::{Answer, PlanVerdict, Profile, StepCount, Table1};
pub use plan_text::{MoveFlow, PlanLine, PlanText, PlanWord, word_of_move};
pub use refusal::Refusal;
