//! A cursor over the tokens of a script, and what single tokens mean.
#![tactic(auto)]

mod columns;
mod lexemes;
mod lists;
mod tokens;

pub use columns::{column_from, column_reference};
pub use lexemes::{
    aggregate_of, comparison_of, cost_part_of, direction_of, factor_operator_of, kind_of, minus_of,
    outer_of, quantifier_of, term_operator_of, truth_of,
};
pub use lists::{first_and_rest, many};
pub use tokens::Tokens;
