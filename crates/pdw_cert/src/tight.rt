//! The least of the root's bounds.

ghost use Rattle.std.specs.Prelude.{◌≡◌, ◌≢◌, Some, MatchBool};
ghost use Rattle.pdw_cert.specs.Shape as spec;
ghost use Rattle.pdw_ways.specs.Bounds as bounds;

use pdw_groups::Group;
use sqlite_items::{Items, at};

// The lesser of two bounds.
fn lesser(first: Option<u128>, second: Option<u128>) -> Option<u128>
    ensures { result ≡ bounds.lesser first second }
{
    match (first, second) {
        (Some(bound), Some(other)) => {
            if other < bound {
                Some(other)
            } else {
                Some(bound)
            }
        }
        (Some(bound), None) => Some(bound),
        (None, other) => other,
    }
}

fn least_in(list: &[Option<u128>]) -> Option<u128>
    ensures { result ≡ bounds.least_in list.now }
{
    let mut least = None;
    for bound in list {
        least = lesser(least, *bound);
    }
    least
}

/// The least of the bounds of the root, which is the last group.
pub(crate) fn least_of_root(groups: &[Group], lists: &[Items<Option<u128>>]) -> Option<u128>
    ensures { result ≡ spec.least_of_root groups.now lists.now }
{
    match at(lists, groups.len().saturating_sub(1)) {
        Some(list) => least_in(list.as_slice()),
        None => None,
    }
}

/// Whether a bound is a cost.
pub(crate) fn is_cost(bound: Option<u128>, cost: u128) -> bool
    ensures { MatchBool result (bound ≡ Some cost) (bound ≢ Some cost) }
{
    match bound {
        Some(bound) => bound == cost,
        None => false,
    }
}
