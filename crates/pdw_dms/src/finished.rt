ghost use Rattle.std.specs.Prelude.{◌≡◌, [], IfOk, OnOk, OnErr};
ghost use Rattle.pdw_machine.specs.Events.{enabled_events};
ghost use Rattle.pdw_machine.specs.Machine.{sent_in};
ghost use Rattle.pdw_dms.specs.Ends.{EndsWith};
ghost use Rattle.pdw_dms.specs.Finished.{Driven, Follows};
ghost use Rattle.pdw_dms.specs.Moved.{IsMoved};
ghost use Rattle.pdw_dms.specs.Transfer.{IsSound};

use crate::{Picker, Transfer};
use pdw_base::{NoMemory, Node};
use pdw_machine::Event;
use pdw_move::Placed;
use sqlite_items::Items;
use std::alloc::Global;

/// A transfer that is done: the rows where they went, how many went from each node to each node, and all its events.
#[derive(Drop)]
pub struct Finished {
    pub moved: Placed,
    pub sent: Items<(Node, Node, u64)>,
    pub events: Items<Event>,
}

/// Applies the events that the picker picks until none is enabled.
pub fn drive<P: Picker>(
    alloc: Global,
    transfer: Transfer,
    picker: &mut P,
) -> Result<Finished, NoMemory>
    ensures moved { IfOk result (λ f. IsMoved transfer.job transfer.state f.moved) }
    ensures sent { IfOk result (λ f. f.sent ≡ sent_in transfer.job transfer.state) }
    ensures counts { IfOk result (λ f. EndsWith transfer.job transfer.state f.events) }
    ensures run { IfOk result (λ f. Driven transfer f.events (P.told picker.old) (P.told picker.new)) }
{
    let mut transfer = transfer;
    let sent = transfer.sent(alloc)?;
    finish(alloc, &mut transfer, picker)?;
    let (moved, events) = transfer.into_parts(alloc)?;
    Ok(Finished {
        moved,
        sent,
        events: Items::from_vec(events),
    })
}

// Applies what the picker picks until no event is enabled.
fn finish<P: Picker>(alloc: Global, transfer: &mut Transfer, picker: &mut P) -> Result<(), NoMemory>
    requires { IsSound transfer.old }
    ensures sound { IsSound transfer.new }
    ensures follows { OnOk result (Follows transfer.old transfer.new (P.told picker.old) (P.told picker.new)) }
    ensures finished { OnOk result (enabled_events transfer.new.job transfer.new.state ≡ []) }
{
    let mut count = transfer.enabled_count();
    while count > 0 {
        let answer = picker.pick(count);
        let event = transfer.nth_enabled(answer % count);
        transfer.apply(alloc, event)?;
        count = transfer.enabled_count();
    }
    Ok(())
}
