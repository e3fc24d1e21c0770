//! Trees of operators over numbered columns.
#![tactic(auto)]

mod copies;
mod local;
mod schema;
mod shape;
mod tree;
mod types;

pub use copies::{aggs_copy, conds_copy, items_copy, make_copy};
pub use local::LocalTree;
pub use pdw_partial::{
    admitted_partials_add_up, final_of_partials_is_the_groups, partials_of_one_bag_are_admitted,
};
pub use schema::{schema_of, schema_over};
pub use shape::columns_of;
pub use tree::{MOST_LEAVES, Tree, the_limit_of_leaves_is_this};
pub use types::{aggregate_kind, kind_at, scalar_kind};
