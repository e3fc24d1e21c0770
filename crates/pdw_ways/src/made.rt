use pdw_groups::GroupId;
use pdw_move::Prop;

/// What a plan makes: the rows of a group, placed under a property.
#[derive(Clone, Copy, PartialEq, Eq)]
pub struct Made {
    pub group: GroupId,
    pub prop: Prop,
}
