//! Plan files of what is planned, and what is found of a file that should hold a least plan.
#![tactic(auto)]

mod laws;
mod verdict;
mod written;

pub use laws::{
    a_plan_file_has_one_verdict, a_plan_file_reads_back, a_printed_plan_is_accepted,
    each_file_has_a_verdict,
};
pub use verdict::check_file;
pub use written::plan_file;
