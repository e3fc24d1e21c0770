//! How tokens are read: the readers of the grammar as definitions, and the laws between them and the grammar's rules.
#![tactic(auto)]

mod content;
mod laws;
mod limit;
mod parse_error;

pub use content::{Among, Content, Operand, Source, Wanted};
pub use laws::{a_fault_is_unique, statements_are_unique, statements_have_no_fault};
pub use limit::{MOST_OPEN, the_limit_of_parentheses_is_this};
pub use parse_error::{ParseError, Stop};
