//! A whole run: the words of the command line, the script, its statements, and what they print.
#![tactic(auto)]

pub mod laws;
mod perform;
mod reading;
mod refusal;
pub mod run;
mod status;
mod step;
mod stop;
mod words;

pub use reading::read_script;
pub use refusal::refusal_line;
pub use status::Status;
pub use step::run_statements;
