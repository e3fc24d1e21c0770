//! The property of the root under which its rows are made at the least cost.

ghost use Rattle.std.specs.List.{slice_get};
ghost use Rattle.std.specs.Option.{IsSome};
ghost use Rattle.std.specs.Prelude.{◌≡◌, ℕ, IfOk, List, Option, Some, length};
ghost use Rattle.pdw_enum.specs.Root.{AreDifferent, Stands, bound_at};
ghost use Rattle.pdw_rules.specs.Rules.{properties_of};
ghost use Rattle.pdw_ways.specs.Bounds.{bound_by, least_in, lesser};

use pdw_base::{ColId, NoMemory};
use pdw_move::Prop;
use pdw_rules::properties;
use std::alloc::Global;

// A bound of a list, and where it stands.
#[derive(Clone, Copy)]
struct Least {
    place: usize,
    cost: u128,
}

// The lesser of what was found and of the bound at a place. What was found where they are the same.
fn with_bound(found: Option<Least>, place: usize, bound: Option<u128>) -> Option<Least>
    ensures least { bound_at result ≡ lesser (bound_at found) bound }
    ensures there { (bounds : List (Option ℕ)) → slice_get bounds place ≡ Some bound → Stands bounds found → Stands bounds result }
{
    let Some(cost) = bound else {
        return found;
    };
    match found {
        None => Some(Least { place, cost }),
        Some(least) => {
            if cost < least.cost {
                Some(Least { place, cost })
            } else {
                Some(least)
            }
        }
    }
}

// The least of some bounds. None where each is unreachable.
fn least_bound(bounds: &[Option<u128>]) -> Option<Least>
    ensures least { bound_at result ≡ least_in bounds.now }
    ensures there { Stands bounds.now result }
{
    let mut found = None;
    for (place, bound) in bounds.iter().enumerate() {
        found = with_bound(found, place, *bound);
    }
    found
}

/// A property of a group with these interesting columns, of which the bound is the least.
pub(crate) fn cheapest(
    alloc: Global,
    interesting: &[ColId],
    bounds: &[Option<u128>],
) -> Result<Prop, NoMemory>
    requires size { length bounds.now ≡ length (properties_of interesting.now) }
    requires different { AreDifferent interesting.now }
    requires reached { IsSome (least_in bounds.now) }
    ensures { IfOk result (λ prop. bound_by interesting.now bounds.now prop ≡ least_in bounds.now) }
{
    let Some(least) = least_bound(bounds) else {
        unreachable!();
    };
    let props = properties(alloc, interesting)?;
    Ok(props.as_slice()[least.place])
}
