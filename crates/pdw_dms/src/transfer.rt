ghost use Rattle.std.specs.Prelude.{◌≡◌, ◌<◌, ◌++◌, ◌∷◌, [], ◌↔◌, true, length, slice_get, IsTrue, Some, IfOk, OnOk, OnErr};
ghost use Rattle.pdw_machine.specs.Events.{enabled_events};
ghost use Rattle.pdw_machine.specs.Machine.{all_written, is_enabled, sent_in, start_of};
ghost use Rattle.pdw_dms.specs.Moved.{AddsUp, IsIdle};
ghost use Rattle.pdw_dms.specs.Transfer.{IsSound, applied};

use pdw_base::{NoMemory, Node, NodeCount, Schema};
use pdw_machine::{Event, Job, Machine};
use pdw_move::{Move, Placed};
use sqlite_items::Items;
use std::alloc::Global;
use std::marker::Model;

/// A transfer: a move of rows at work, and the events that were applied.
#[derive(Drop)]
pub struct Transfer {
    machine: Machine,
    events: Vec<Event>,
}

impl Model for Transfer {
    ghost use Rattle.pdw_dms.specs.Transfer.{Held, IsSound as IsSoundOf};

    ghost Value = { Held };

    ghost view = { λ t. record { job = t.machine.job; state = t.machine.state; events = t.events.items } };

    ghost invariant = { λ t. IsSoundOf (record { job = t.machine.job; state = t.machine.state; events = t.events.items }) };
}

impl Transfer {
    /// A transfer of which every row is unread. The rows stand at the nodes as `sources` says.
    pub fn new(
        alloc: Global,
        mv: Move,
        schema: Schema,
        nodes: NodeCount,
        sources: Placed,
    ) -> Result<Transfer, NoMemory>
        requires { length sources.nodes ≡ nodes }
        ensures { IfOk result (λ t. t ≡ record { job = record { mv = mv; columns = schema; nodes = nodes }; state = start_of nodes sources; events = [] }) }
    {
        let machine = Machine::new(alloc, Job::new(mv, schema, nodes), sources)?;
        Ok(Transfer {
            machine,
            events: Vec::new(alloc),
        })
    }

    /// Whether an event is enabled.
    pub fn enabled(&self, event: &Event) -> bool
        ensures { result ≡ is_enabled self.now.job self.now.state event.now }
    {
        self.machine.is_enabled(event)
    }

    /// How many events are enabled.
    pub fn enabled_count(&self) -> u32
        ensures { result ≡ length (enabled_events self.now.job self.now.state) }
    {
        self.machine.enabled_count()
    }

    /// The k-th event that is enabled, counted from 0.
    pub fn nth_enabled(&self, k: u32) -> Event
        requires { k < length (enabled_events self.now.job self.now.state) }
        ensures number { slice_get (enabled_events self.now.job self.now.state) k ≡ Some result }
        ensures enabled { is_enabled self.now.job self.now.state result ≡ true }
    {
        self.machine.nth_enabled(k)
    }

    /// Whether no event is enabled.
    pub fn is_finished(&self) -> bool
        ensures finished { IsTrue result ↔ (enabled_events self.now.job self.now.state ≡ []) }
        ensures idle { IsTrue result → IsIdle self.now.job.nodes self.now.state }
    {
        self.machine.enabled_count() == 0
    }

    /// Does what an event says. Out of memory leaves the transfer as it was.
    pub fn apply(&mut self, alloc: Global, event: Event) -> Result<(), NoMemory>
        requires { is_enabled self.old.job self.old.state event ≡ true }
        ensures ok { OnOk result (self.new ≡ applied event self.old) }
        ensures err { OnErr result (self.new ≡ self.old) }
        ensures sound { IsSound self.new }
        ensures adds_up { AddsUp self.new.job self.new.state }
    {
        self.events.reserve(1)?;
        self.machine.apply(alloc, event)?;
        self.events.push_reserved(event);
        Ok(())
    }

    /// How many rows go from each node to each node, the control node last.
    pub(crate) fn sent(&self, alloc: Global) -> Result<Items<(Node, Node, u64)>, NoMemory>
        ensures { IfOk result (λ sent. sent ≡ sent_in self.now.job self.now.state) }
    {
        self.machine.sent(alloc)
    }

    /// The rows that are written, at each node, and the events.
    pub(crate) fn into_parts(self, alloc: Global) -> Result<(Placed, Vec<Event>), NoMemory>
        ensures placed { IfOk result (λ parts. parts.0.nodes ++ parts.0.control ∷ [] ≡ all_written self.state) }
        ensures events { IfOk result (λ parts. parts.1.items ≡ self.events) }
    {
        let placed = self.machine.into_written(alloc)?;
        Ok((placed, self.events))
    }
}
