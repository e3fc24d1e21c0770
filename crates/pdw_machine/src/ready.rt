ghost use Rattle.std.specs.Prelude.{◌≡◌, ◌<◌, ◌≤◌, suc, false, length, map, replicate, slice_set, IfOk};
ghost use Rattle.pdw_move.specs.declared.placed.Placed.{Placed as PlacedRows};
ghost use Rattle.pdw_machine.specs.Flags.{row_at, with_column};
ghost use Rattle.pdw_machine.specs.Machine.{IsShaped, next_receivers, source_at, start_of};
ghost use Rattle.pdw_machine.specs.Ready.{IsReady, RefreshesCopy, RefreshesDeliver, RefreshesFlush, RefreshesRead, can_read_first, deliver_column, deliver_numbered, flush_numbered, flush_row, is_up, numbered, up_in_all};

use crate::event::{Event, node_at, place};
use crate::flags::Flags;
use crate::grid::Grid;
use crate::job::Job;
use crate::state::State;
use pdw_base::{NoMemory, NodeCount};
use pdw_move::Receivers;
use std::alloc::Global;

/// Which events are enabled, and where the first unread row of each source goes. It is set anew event by event, so that
/// no event is tested twice and no row hashed twice.
#[derive(Drop)]
pub(crate) struct Ready {
    pub(crate) next: Vec<Receivers>,
    pub(crate) reads: Flags,
    pub(crate) flushes: Grid,
    pub(crate) delivers: Grid,
    pub(crate) copies: Flags,
}

impl Ready {
    ghost use Rattle.std.specs.Prelude.{vec_len};

    /// What a fresh state says: its sources may be read, and nothing is on its way.
    pub(crate) fn new(alloc: Global, job: &Job, state: &State) -> Result<Ready, NoMemory>
        requires { (placed : PlacedRows) × (state.now ≡ start_of job.now.nodes placed) }
        ensures { IfOk result (λ ready. IsReady job.now state.now ready) }
    {
        let (next, reads) = first_reads(alloc, job, state)?;
        let (flushes, delivers, copies) = nothing_under_way(alloc, job.nodes())?;
        Ok(Ready {
            next,
            reads,
            flushes,
            delivers,
            copies,
        })
    }

    /// Whether an event is enabled.
    pub(crate) fn is_up(&self, nodes: NodeCount, event: &Event) -> bool
        ensures { result ≡ is_up nodes self.now event.now }
    {
        match event {
            Event::Read(from) => self.reads.is_up(place(nodes, *from)),
            Event::Flush(from, to) => self.flushes.is_up(place(nodes, *from), place(nodes, *to)),
            Event::Deliver(from, to) => self.delivers.is_up(place(nodes, *from), place(nodes, *to)),
            Event::Copy(to) => self.copies.is_up(place(nodes, *to)),
        }
    }

    /// How many events are enabled.
    pub(crate) fn count(&self) -> usize
        ensures count { result ≡ up_in_all self.now }
        ensures most { result ≤ 612 }
    {
        let ends = self.reads.count() + self.copies.count();
        ends + self.flushes.count() + self.delivers.count()
    }

    /// The k-th event that is enabled, counted from 0.
    pub(crate) fn nth(&self, nodes: NodeCount, k: usize) -> Event
        ensures { result ≡ numbered nodes self.now k }
    {
        let reads = self.reads.count();
        if k < reads {
            Event::Read(node_at(nodes, self.reads.nth(k)))
        } else {
            self.nth_flush(nodes, k - reads)
        }
    }

    // The k-th from the flushes on.
    fn nth_flush(&self, nodes: NodeCount, k: usize) -> Event
        ensures { result ≡ flush_numbered nodes self.now k }
    {
        let flushes = self.flushes.count();
        if k < flushes {
            let (from, to) = self.flushes.nth(k);
            Event::Flush(node_at(nodes, from), node_at(nodes, to))
        } else {
            self.nth_deliver(nodes, k - flushes)
        }
    }

    // The k-th from the deliveries on.
    fn nth_deliver(&self, nodes: NodeCount, k: usize) -> Event
        ensures { result ≡ deliver_numbered nodes self.now k }
    {
        let delivers = self.delivers.count();
        if k < delivers {
            let (from, to) = self.delivers.nth(k);
            Event::Deliver(node_at(nodes, from), node_at(nodes, to))
        } else {
            Event::Copy(node_at(nodes, self.copies.nth(k - delivers)))
        }
    }

    /// Sets anew what a read changes.
    pub(crate) fn refresh_read(&mut self, job: &Job, state: &State, from: usize)
        requires shaped { IsShaped job.now.nodes state.now }
        requires inside { from ≤ job.now.nodes }
        requires next { from < vec_len self.old.next }
        requires row { length (row_at from self.old.flushes) ≡ suc job.now.nodes }
        ensures { RefreshesRead job.now state.now from self.old self.new }
    {
        let next = state.next_receivers(job, from);
        self.next[from] = next;
        self.reads
            .set(from, state.can_read(job.nodes(), next, from));
        refresh_flushes(&mut self.flushes, job.nodes(), state, from);
    }

    /// Sets anew what a flush changes.
    pub(crate) fn refresh_flush(&mut self, job: &Job, state: &State, from: usize, to: usize)
        requires shaped { IsShaped job.now.nodes state.now }
        requires from { from ≤ job.now.nodes }
        requires to { to ≤ job.now.nodes }
        ensures { RefreshesFlush job.now state.now from to self.old self.new }
    {
        let nodes = job.nodes();
        let next = state.next_receivers(job, from);
        self.reads.set(from, state.can_read(nodes, next, from));
        self.flushes.set(from, to, state.can_flush(nodes, from, to));
        self.delivers
            .set(from, to, state.can_deliver(nodes, from, to));
    }

    /// Sets anew what a delivery changes.
    pub(crate) fn refresh_deliver(&mut self, job: &Job, state: &State, from: usize, to: usize)
        requires shaped { IsShaped job.now.nodes state.now }
        requires from { from ≤ job.now.nodes }
        requires to { to ≤ job.now.nodes }
        ensures { RefreshesDeliver state.now from to self.old self.new }
    {
        let nodes = job.nodes();
        self.flushes.set(from, to, state.can_flush(nodes, from, to));
        refresh_delivers(&mut self.delivers, nodes, state, to);
        self.copies.set(to, state.can_copy(nodes, to));
    }

    /// Sets anew what a copy changes.
    pub(crate) fn refresh_copy(&mut self, job: &Job, state: &State, to: usize)
        requires shaped { IsShaped job.now.nodes state.now }
        requires inside { to ≤ job.now.nodes }
        ensures { RefreshesCopy state.now to self.old self.new }
    {
        let nodes = job.nodes();
        refresh_delivers(&mut self.delivers, nodes, state, to);
        self.copies.set(to, state.can_copy(nodes, to));
    }
}

// Where the first row of each source goes, and whether it can be read.
fn first_reads(alloc: Global, job: &Job, state: &State) -> Result<(Vec<Receivers>, Flags), NoMemory>
    requires { IsShaped job.now.nodes state.now }
    ensures next { IfOk result (λ made. made.0.items ≡ map (next_receivers job.now) state.now.sources) }
    ensures reads { IfOk result (λ made. made.1 ≡ map (can_read_first job.now) state.now.sources) }
{
    let nodes = job.nodes();
    let len = nodes.get() as usize + 1;
    let mut next = Vec::with_capacity(alloc, len)?;
    let mut reads = Flags::new(alloc, len)?;
    for from in 0..len {
        let receivers = state.next_receivers(job, from);
        reads.set(from, state.can_read(nodes, receivers, from));
        next.push(receivers)?;
    }
    Ok((next, reads))
}

// The flags of packets, of links and of inboxes while nothing is on its way.
fn nothing_under_way(alloc: Global, nodes: NodeCount) -> Result<(Grid, Grid, Flags), NoMemory>
    ensures flushes { IfOk result (λ made. made.0 ≡ replicate (suc nodes) (replicate (suc nodes) false)) }
    ensures delivers { IfOk result (λ made. made.1 ≡ replicate (suc nodes) (replicate (suc nodes) false)) }
    ensures copies { IfOk result (λ made. made.2 ≡ replicate (suc nodes) false) }
{
    let len = nodes.get() as usize + 1;
    let flushes = Grid::new(alloc, len)?;
    let delivers = Grid::new(alloc, len)?;
    let copies = Flags::new(alloc, len)?;
    Ok((flushes, delivers, copies))
}

// The flags of one source's packets.
fn refresh_flushes(flushes: &mut Grid, nodes: NodeCount, state: &State, from: usize)
    requires shaped { IsShaped nodes state.now }
    requires inside { from ≤ nodes }
    requires row { length (row_at from flushes.old) ≡ suc nodes }
    ensures { flushes.new ≡ slice_set flushes.old from (flush_row (source_at from state.now)) }
{
    for to in 0..nodes.get() as usize + 1 {
        flushes.set(from, to, state.can_flush(nodes, from, to));
    }
}

// The flags of the links to one target.
fn refresh_delivers(delivers: &mut Grid, nodes: NodeCount, state: &State, to: usize)
    requires shaped { IsShaped nodes state.now }
    requires inside { to ≤ nodes }
    ensures { delivers.new ≡ with_column to (deliver_column to state.now) delivers.old }
{
    for from in 0..nodes.get() as usize + 1 {
        delivers.set(from, to, state.can_deliver(nodes, from, to));
    }
}
