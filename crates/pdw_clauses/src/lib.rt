//! The clauses of a query with numbers in place of names: FROM, WHERE, GROUP BY with HAVING, and the SELECT list.
#![tactic(auto)]

mod conjuncts;
mod froms;
mod groups;
mod select_list;

pub use conjuncts::{
    Around, enclosing, is_correlated, is_one_column, no_conjuncts, plain_conjunct, with_subquery,
};
pub use froms::{Sources, all_finished, derived, joined, named, no_sources, with_element};
pub use groups::{Frame, after_where};
pub use select_list::{items, repeated_name};
