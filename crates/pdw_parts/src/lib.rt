//! Parts of a block of leaves, and the laws of joining them.
#![tactic(auto)]

mod inside;
mod laws;

pub use inside::{conds_inside, inside_flags, is_inside};
pub use laws::{a_block_is_the_part_of_all_its_leaves, the_join_of_two_parts_is_the_part_of_both};
