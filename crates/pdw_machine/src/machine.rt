ghost use Rattle.std.specs.Prelude.{◌≡◌, ◌<◌, ◌++◌, ◌∷◌, [], true, length, slice_get, Some, IfOk, OnOk, OnErr};
ghost use Rattle.pdw_machine.specs.Events.{enabled_events};
ghost use Rattle.pdw_machine.specs.Machine.{all_written, copy_enabled, deliver_enabled, flush_enabled, is_enabled, place, read_enabled, sent_in, start_of, step};
ghost use Rattle.pdw_machine.specs.declared.event.Event.TheVariants as happens;

use crate::event::{Event, place};
use crate::job::Job;
use crate::pool::Pool;
use crate::ready::Ready;
use crate::state::State;
use pdw_base::{NoMemory, Node, NodeCount};
use pdw_move::Placed;
use sqlite_items::Items;
use std::alloc::Global;
use std::marker::Model;

/// A transfer at work: its job, its state, which events are enabled, and packets that wait to be used again.
#[derive(Drop)]
pub struct Machine {
    job: Job,
    state: State,
    ready: Ready,
    pool: Pool,
}

impl Model for Machine {
    ghost use Rattle.pdw_machine.specs.Machine.{Work};
    ghost use Rattle.pdw_machine.specs.Ready.{IsKept as IsKeptFor};

    ghost Value = { Work };

    ghost view = { λ m. record { job = m.job; state = m.state } };

    ghost invariant = { λ m. IsKeptFor m.job m.state m.ready };
}

impl Machine {
    /// A machine of which every row is unread.
    pub fn new(alloc: Global, job: Job, placed: Placed) -> Result<Machine, NoMemory>
        requires { length placed.nodes ≡ job.nodes }
        ensures { IfOk result (λ m. m ≡ record { job = job; state = start_of job.nodes placed }) }
    {
        let state = State::new(alloc, job.nodes(), placed)?;
        let ready = Ready::new(alloc, &job, &state)?;
        Ok(Machine {
            job,
            state,
            ready,
            pool: Pool::new(alloc),
        })
    }

    /// How many compute nodes there are.
    pub fn nodes(&self) -> NodeCount
        ensures { result ≡ self.now.job.nodes }
    {
        self.job.nodes()
    }

    /// Whether an event is enabled.
    pub fn is_enabled(&self, event: &Event) -> bool
        ensures { result ≡ is_enabled self.now.job self.now.state event.now }
    {
        self.ready.is_up(self.job.nodes(), event)
    }

    /// How many events are enabled.
    pub fn enabled_count(&self) -> u32
        ensures { result ≡ length (enabled_events self.now.job self.now.state) }
    {
        self.ready.count() as u32
    }

    /// The k-th event that is enabled, counted from 0.
    pub fn nth_enabled(&self, k: u32) -> Event
        requires { k < length (enabled_events self.now.job self.now.state) }
        ensures { slice_get (enabled_events self.now.job self.now.state) k ≡ Some result }
    {
        self.ready.nth(self.job.nodes(), k as usize)
    }

    /// The rows that are written, at each node.
    pub fn into_written(self, alloc: Global) -> Result<Placed, NoMemory>
        ensures { IfOk result (λ placed. placed.nodes ++ placed.control ∷ [] ≡ all_written self.state) }
    {
        self.state.into_written(alloc)
    }

    /// How many rows go from each source to each target.
    pub fn sent(&self, alloc: Global) -> Result<Items<(Node, Node, u64)>, NoMemory>
        ensures { IfOk result (λ sent. sent ≡ sent_in self.now.job self.now.state) }
    {
        self.state.sent(alloc, &self.job)
    }

    /// Does what an event says. Out of memory leaves the state as it was.
    pub fn apply(&mut self, alloc: Global, event: Event) -> Result<(), NoMemory>
        requires { is_enabled self.old.job self.old.state event ≡ true }
        ensures ok { OnOk result (self.new.state ≡ step self.old.job event self.old.state) }
        ensures err { OnErr result (self.new.state ≡ self.old.state) }
        ensures job { self.new.job ≡ self.old.job }
    {
        match event {
            Event::Read(from) => self.read(alloc, from),
            Event::Flush(from, to) => {
                self.flush(from, to);
                Ok(())
            }
            Event::Deliver(from, to) => {
                self.deliver(from, to);
                Ok(())
            }
            Event::Copy(to) => self.copy(to),
        }
    }

    fn read(&mut self, alloc: Global, from: Node) -> Result<(), NoMemory>
        requires { read_enabled self.old.job (place self.old.job.nodes from) self.old.state ≡ true }
        ensures ok { OnOk result (self.new.state ≡ step self.old.job (happens.Read from) self.old.state) }
        ensures err { OnErr result (self.new.state ≡ self.old.state) }
        ensures job { self.new.job ≡ self.old.job }
    {
        let nodes = self.job.nodes();
        let at = place(nodes, from);
        let next = self.ready.next[at];
        self.state.read(alloc, nodes, next, at, &mut self.pool)?;
        self.ready.refresh_read(&self.job, &self.state, at);
        Ok(())
    }

    fn flush(&mut self, from: Node, to: Node)
        requires { flush_enabled (place self.old.job.nodes from) (place self.old.job.nodes to) self.old.state ≡ true }
        ensures state { self.new.state ≡ step self.old.job (happens.Flush from to) self.old.state }
        ensures job { self.new.job ≡ self.old.job }
    {
        let nodes = self.job.nodes();
        let from = place(nodes, from);
        let to = place(nodes, to);
        self.state.flush(nodes, from, to);
        self.ready.refresh_flush(&self.job, &self.state, from, to);
    }

    fn deliver(&mut self, from: Node, to: Node)
        requires { deliver_enabled (place self.old.job.nodes from) (place self.old.job.nodes to) self.old.state ≡ true }
        ensures state { self.new.state ≡ step self.old.job (happens.Deliver from to) self.old.state }
        ensures job { self.new.job ≡ self.old.job }
    {
        let nodes = self.job.nodes();
        let from = place(nodes, from);
        let to = place(nodes, to);
        self.state.deliver(nodes, from, to);
        self.ready.refresh_deliver(&self.job, &self.state, from, to);
    }

    fn copy(&mut self, to: Node) -> Result<(), NoMemory>
        requires { copy_enabled (place self.old.job.nodes to) self.old.state ≡ true }
        ensures ok { OnOk result (self.new.state ≡ step self.old.job (happens.Copy to) self.old.state) }
        ensures err { OnErr result (self.new.state ≡ self.old.state) }
        ensures job { self.new.job ≡ self.old.job }
    {
        let nodes = self.job.nodes();
        let to = place(nodes, to);
        self.state.copy(nodes, to, &mut self.pool)?;
        self.ready.refresh_copy(&self.job, &self.state, to);
        Ok(())
    }
}
