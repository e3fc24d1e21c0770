//! Local rules: how the rows of operators stand at the nodes, by how those of their children do.
#![tactic(auto)]

mod joins;
mod laws;
mod property;
mod rules;
mod unary;

pub use laws::{
    a_groups_properties_are_those_it_may_have, filters_keep_properties, free_changes_keep_rows,
    groups_stand_by_their_keys, joins_stand_by_their_rules, moves_bring_rows_to_their_property,
    partial_rows_stand_for_admitted_ones, projections_keep_properties_of_their_columns,
    returned_rows_are_the_bag, scans_stand_by_their_placing, standing_sees_no_order,
};
pub use property::{is_among, is_free, is_same, may_have, properties};
pub use rules::local_rule;
pub use unary::scan_has;
