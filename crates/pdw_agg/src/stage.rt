//! What is made of the rows of each group.

/// What is made of the rows of each group.
#[derive(Clone, Copy)]
pub enum Stage {
    /// The values of the aggregates over these rows.
    Whole,
    /// What the aggregates keep of these rows, which are a part of a group.
    Partial,
    /// The values of the aggregates by what they kept of each part: these rows are partial rows.
    Final,
}
