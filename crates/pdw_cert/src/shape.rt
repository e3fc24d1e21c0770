//! Whether there is one bound for each property of each group.

ghost use Rattle.std.specs.Prelude.{◌≡◌, ◌==◌, ◌<◌, ◌^◌, length};
ghost use Rattle.pdw_cert.specs.Shape as spec;
ghost use Rattle.pdw_rules.specs.Rules.{properties_of};

use crate::property::property_count;
use pdw_groups::Group;
use sqlite_items::{Items, at};

// Whether a list has one bound for each property of a group.
fn fits(list: &[Option<u128>], group: &Group) -> bool
    ensures { result ≡ (length list.now == length (properties_of group.now.interesting)) }
{
    list.len() == property_count(group.interesting.as_slice())
}

/// The first group, by number, whose list of bounds is missing, surplus, or of another length than its properties.
pub(crate) fn first_misshapen(groups: &[Group], lists: &[Items<Option<u128>>]) -> Option<u32>
    requires few { length groups.now < 2 ^ 32 }
    ensures { result ≡ spec.first_misshapen groups.now lists.now }
{
    for (place, group) in groups.iter().enumerate() {
        let Some(list) = at(lists, place) else {
            return Some(place as u32);
        };
        if !fits(list.as_slice(), group) {
            return Some(place as u32);
        }
    }
    if groups.len() < lists.len() {
        return Some(groups.len() as u32);
    }
    None
}
