//! Statistics of tables: those that are measured, those of which nothing is known, and the book that keeps them.
#![tactic(auto)]

mod book;
mod known;
mod measuring;
mod stats;

pub use book::StatsBook;
pub use measuring::{measure, measures_of_equal_bags_are_equal};
pub use stats::{
    ColStat, LEAST_DISTINCT, LEAST_WIDTH, MOST_DISTINCT, MOST_ROWS, MOST_WIDTH, Stats,
    default_stats, limits_of_statistics_are_these,
};
