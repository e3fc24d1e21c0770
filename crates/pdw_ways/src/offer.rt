//! Ways that are offered, each with what the kept bounds allow to it, and the cheapest of several.

ghost use Rattle.std.specs.Prelude.{◌≡◌};
ghost use Rattle.pdw_ways.specs.Bounds.{IsSmall, plus};
ghost use Rattle.pdw_ways.specs.Search.{cheaper as the_cheaper, with_way as and_way};

use crate::Way;

/// A way, with what bounds allow to it: the sum of its children's bounds and of what it adds.
#[derive(Clone, Copy, PartialEq, Eq)]
pub struct Offer {
    pub way: Way,
    pub cost: u128,
}

// The sum of two bounds.
pub(crate) fn sum_of_two(first: Option<u128>, second: Option<u128>) -> Option<u128>
    requires first { IsSmall first }
    requires second { IsSmall second }
    ensures { result ≡ plus first second }
{
    match (first, second) {
        (Some(first), Some(second)) => Some(first + second),
        _ => None,
    }
}

// The cheaper of an offer and of a way with its sum. The first where they cost the same.
pub(crate) fn with_way(best: Option<Offer>, way: Way, sum: Option<u128>) -> Option<Offer>
    ensures { result ≡ and_way best way sum }
{
    let Some(cost) = sum else {
        return best;
    };
    match best {
        None => Some(Offer { way, cost }),
        Some(offer) => {
            if cost < offer.cost {
                Some(Offer { way, cost })
            } else {
                Some(offer)
            }
        }
    }
}

// The cheaper of two offers. The first where they cost the same.
pub(crate) fn cheaper(first: Option<Offer>, second: Option<Offer>) -> Option<Offer>
    ensures { result ≡ the_cheaper first second }
{
    match second {
        Some(offer) => with_way(first, offer.way, Some(offer.cost)),
        None => first,
    }
}
