use pdw_ways::{Made, Way};

/// A way to make the rows of a group under a property that costs less than what was known before.
#[derive(Clone, Copy, PartialEq, Eq)]
pub struct Entry {
    pub made: Made,
    pub way: Way,
    pub cost: u128,
}
