//! The bounds of the group at hand, which fall.

ghost use Rattle.std.specs.Prelude.{◌≡◌, ◌<◌, ◌^◌, length, IfOk, IfSome, OnOk};
ghost use Rattle.pdw_rules.specs.Rules.{is_same, properties_of};
ghost use Rattle.pdw_ways.specs.Bounds.{bound_by as bound_for, place_among};
ghost use Rattle.pdw_least.specs.States.{falls, is_lower as lower_than, lowered_log, lowered_row, put_at};

use crate::Entry;
use pdw_base::{ColId, NoMemory};
use pdw_ways::{Made, Offer, bound_by, place_of};
use sqlite_items::Items;

fn is_lower(cost: u128, bound: Option<u128>) -> bool
    ensures { result ≡ lower_than cost bound }
{
    match bound {
        Some(bound) => cost < bound,
        None => true,
    }
}

// Puts a bound to its place in a row.
fn put(row: &mut Items<Option<u128>>, interesting: &[ColId], made: Made, cost: u128)
    requires { length row.old ≡ length (properties_of interesting.now) }
    ensures { row.new ≡ put_at (place_among (is_same made.prop) (properties_of interesting.now)) cost row.old }
{
    if let Some(place) = place_of(interesting, made.prop) {
        row.set(place, Some(cost));
    }
}

// Lowers the bound of what an offer makes, where the offer is below it, with an entry in the log.
pub(crate) fn lower(
    row: &mut Items<Option<u128>>,
    log: &mut Items<Entry>,
    interesting: &[ColId],
    made: Made,
    offer: Option<Offer>,
) -> Result<bool, NoMemory>
    requires { length row.old ≡ length (properties_of interesting.now) }
    ensures row { OnOk result (row.new ≡ lowered_row interesting.now made.prop offer row.old) }
    ensures log { OnOk result (log.new ≡ lowered_log made offer (bound_for interesting.now row.old made.prop) log.old) }
    ensures fell { IfOk result (λ fell. fell ≡ falls offer (bound_for interesting.now row.old made.prop)) }
    ensures small { IfOk result (λ fell. IfSome offer (λ o. o.cost < 2 ^ 128)) }
{
    let Some(offer) = offer else {
        return Ok(false);
    };
    let bound = bound_by(interesting, row.as_slice(), made.prop);
    if !is_lower(offer.cost, bound) {
        return Ok(false);
    }
    log.push(Entry {
        made,
        way: offer.way,
        cost: offer.cost,
    })?;
    put(row, interesting, made, offer.cost);
    Ok(true)
}
