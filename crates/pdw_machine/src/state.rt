ghost use Rattle.std.specs.Prelude.{◌≡◌, ◌<◌, ◌≤◌, ◌++◌, ◌∷◌, [], true, map, length, IfOk, OnOk, OnErr};
ghost use Rattle.pdw_move.specs.Placed.{all_nodes};
ghost use Rattle.pdw_machine.specs.Machine.{IsShaped, all_written, can_read, copy_at, copy_enabled, deliver_at, deliver_enabled, flush_at, flush_enabled, next_receivers, read_at, sent_in, source_at, start_lane, start_of, start_source, start_target};

use crate::job::Job;
use crate::lane::{Lane, MOST_PACKETS};
use crate::pool::Pool;
use crate::sent::add_sent;
use crate::source::Source;
use crate::target::Target;
use pdw_base::{Bag, NoMemory, Node, NodeCount};
use pdw_move::{Placed, Receivers};
use sqlite_items::Items;
use std::alloc::Global;
use std::marker::Model;

/// The sources and the targets of a transfer, in the order of the nodes.
#[derive(Drop)]
pub(crate) struct State {
    sources: Vec<Source>,
    targets: Vec<Target>,
}

impl Model for State {
    ghost use Rattle.pdw_machine.specs.Machine.{State as MachineState};

    ghost Value = { MachineState };

    ghost view = { λ s. record { sources = s.sources.items; targets = s.targets.items } };
}

impl State {
    /// Every row is unread, and nothing is on its way.
    pub(crate) fn new(alloc: Global, nodes: NodeCount, placed: Placed) -> Result<State, NoMemory>
        requires { length placed.nodes ≡ nodes }
        ensures { IfOk result (λ s. s ≡ start_of nodes placed) }
    {
        let targets = start_targets(alloc, nodes)?;
        let sources = start_sources(alloc, nodes, placed)?;
        Ok(State { sources, targets })
    }

    /// The rows that are written, at each node.
    pub(crate) fn into_written(self, alloc: Global) -> Result<Placed, NoMemory>
        requires { 0 < length self.targets }
        ensures { IfOk result (λ placed. placed.nodes ++ placed.control ∷ [] ≡ all_written self) }
    {
        let mut bags = Vec::with_capacity(alloc, self.targets.len())?;
        for target in self.targets {
            bags.push(target.into_written())?;
        }
        let control = match bags.pop() {
            Some(control) => control,
            None => Bag::new(alloc),
        };
        Ok(Placed {
            nodes: Items::from_vec(bags),
            control,
        })
    }

    /// How many rows go from each source to each target.
    pub(crate) fn sent(
        &self,
        alloc: Global,
        job: &Job,
    ) -> Result<Items<(Node, Node, u64)>, NoMemory>
        ensures { IfOk result (λ sent. sent ≡ sent_in job.now self.now) }
    {
        let mut sent = Vec::new(alloc);
        for source in self.sources.iter() {
            let (node, rows) = source.rows();
            add_sent(alloc, job, node, rows, &mut sent)?;
        }
        Ok(Items::from_vec(sent))
    }

    /// Where the first unread row of a source goes.
    pub(crate) fn next_receivers(&self, job: &Job, from: usize) -> Receivers
        requires { from < length self.now.sources }
        ensures { result ≡ next_receivers job.now (source_at from self.now) }
    {
        self.sources[from].next_receivers(job)
    }

    /// Whether a source has an unread row, and room for it at these receivers.
    pub(crate) fn can_read(&self, nodes: NodeCount, next: Receivers, from: usize) -> bool
        requires shaped { IsShaped nodes self.now }
        requires inside { from ≤ nodes }
        ensures { result ≡ can_read nodes next (source_at from self.now) }
    {
        self.sources[from].can_read(nodes, next)
    }

    /// Whether the packet from a source to a target can go on its link.
    pub(crate) fn can_flush(&self, nodes: NodeCount, from: usize, to: usize) -> bool
        requires shaped { IsShaped nodes self.now }
        requires inside { from ≤ nodes }
        ensures { result ≡ flush_enabled from to self.now }
    {
        self.sources[from].can_flush(to)
    }

    /// Whether the first packet on the link can go into the target's inbox.
    pub(crate) fn can_deliver(&self, nodes: NodeCount, from: usize, to: usize) -> bool
        requires shaped { IsShaped nodes self.now }
        requires from { from ≤ nodes }
        requires to { to ≤ nodes }
        ensures { result ≡ deliver_enabled from to self.now }
    {
        self.sources[from].link_len(to) > 0 && self.targets[to].inbox_len() < MOST_PACKETS
    }

    /// Whether a packet is in the target's inbox.
    pub(crate) fn can_copy(&self, nodes: NodeCount, to: usize) -> bool
        requires shaped { IsShaped nodes self.now }
        requires inside { to ≤ nodes }
        ensures { result ≡ copy_enabled to self.now }
    {
        self.targets[to].inbox_len() > 0
    }

    /// The first unread row is read. Out of memory leaves all as it was.
    pub(crate) fn read(
        &mut self,
        alloc: Global,
        nodes: NodeCount,
        next: Receivers,
        from: usize,
        pool: &mut Pool,
    ) -> Result<(), NoMemory>
        requires shaped { IsShaped nodes self.old }
        requires inside { from ≤ nodes }
        requires enabled { can_read nodes next (source_at from self.old) ≡ true }
        ensures ok { OnOk result (self.new ≡ read_at nodes next from self.old) }
        ensures err { OnErr result (self.new ≡ self.old) }
    {
        self.sources[from].read(alloc, nodes, next, pool)
    }

    /// The packet goes on its link.
    pub(crate) fn flush(&mut self, nodes: NodeCount, from: usize, to: usize)
        requires shaped { IsShaped nodes self.old }
        requires inside { from ≤ nodes }
        requires enabled { flush_enabled from to self.old ≡ true }
        ensures { self.new ≡ flush_at from to self.old }
    {
        self.sources[from].flush(to);
    }

    /// The link's first packet goes into the inbox.
    pub(crate) fn deliver(&mut self, nodes: NodeCount, from: usize, to: usize)
        requires shaped { IsShaped nodes self.old }
        requires from { from ≤ nodes }
        requires to { to ≤ nodes }
        requires enabled { deliver_enabled from to self.old ≡ true }
        ensures { self.new ≡ deliver_at from to self.old }
    {
        if let Some(packet) = self.sources[from].deliver(to) {
            self.targets[to].receive(packet);
        }
    }

    /// The rows of the inbox's first packet are written. Out of memory leaves all as it was.
    pub(crate) fn copy(
        &mut self,
        nodes: NodeCount,
        to: usize,
        pool: &mut Pool,
    ) -> Result<(), NoMemory>
        requires shaped { IsShaped nodes self.old }
        requires inside { to ≤ nodes }
        ensures ok { OnOk result (self.new ≡ copy_at to self.old) }
        ensures err { OnErr result (self.new ≡ self.old) }
    {
        self.targets[to].copy(pool)
    }
}

// A lane to each node, with nothing on it.
fn start_lanes(alloc: Global, nodes: NodeCount, from: Node) -> Result<Vec<Lane>, NoMemory>
    ensures { IfOk result (λ lanes. lanes.items ≡ map (start_lane from) (all_nodes nodes)) }
{
    let count = nodes.get();
    let mut lanes = Vec::with_capacity(alloc, count as usize + 1)?;
    for number in 0..count {
        lanes.push(Lane::new(alloc, from, Node::Compute(number))?)?;
    }
    lanes.push(Lane::new(alloc, from, Node::Control)?)?;
    Ok(lanes)
}

// Each node's rows, of which none was read.
fn start_sources(
    alloc: Global,
    nodes: NodeCount,
    mut placed: Placed,
) -> Result<Vec<Source>, NoMemory>
    requires { length placed.nodes ≡ nodes }
    ensures { IfOk result (λ sources. sources.items ≡ map (start_source nodes placed) (all_nodes nodes)) }
{
    let count = nodes.get();
    let mut sources = Vec::with_capacity(alloc, count as usize + 1)?;
    for number in 0..count {
        let from = Node::Compute(number);
        let lanes = start_lanes(alloc, nodes, from)?;
        sources.push(Source::new(from, placed.nodes.remove(0), lanes))?;
    }
    let lanes = start_lanes(alloc, nodes, Node::Control)?;
    sources.push(Source::new(Node::Control, placed.control, lanes))?;
    Ok(sources)
}

// A target at each node, to which nothing came.
fn start_targets(alloc: Global, nodes: NodeCount) -> Result<Vec<Target>, NoMemory>
    ensures { IfOk result (λ targets. targets.items ≡ map start_target (all_nodes nodes)) }
{
    let count = nodes.get();
    let mut targets = Vec::with_capacity(alloc, count as usize + 1)?;
    for _node in 0..count {
        targets.push(Target::new(alloc)?)?;
    }
    targets.push(Target::new(alloc)?)?;
    Ok(targets)
}
