ghost use Rattle.std.specs.Prelude.{◌≡◌, ◌<◌, ◌≤◌, ◌++◌, true, length, map, take, drop, slice_set, vec_len, OnOk, OnErr};
ghost use Rattle.std.specs.List.{list_all};
ghost use Rattle.pdw_machine.specs.Lane.{parcel_list};
ghost use Rattle.pdw_machine.specs.Machine.{after_read, can_flush, can_read, dealt, delivered, fed, flushed, has_room, have_room, lane_at, next_receivers, with_lane};

use crate::event::place;
use crate::job::Job;
use crate::lane::Lane;
use crate::pool::Pool;
use pdw_base::{Bag, NoMemory, Node, NodeCount, Row};
use pdw_move::Receivers;
use pdw_packet::Packet;
use std::alloc::Global;
use std::marker::Model;

/// Where rows are read: its rows, how many of them were read, and a lane to each node.
#[derive(Drop)]
pub(crate) struct Source {
    node: Node,
    rows: Bag,
    count: usize,
    lanes: Vec<Lane>,
}

impl Model for Source {
    ghost use Rattle.pdw_machine.specs.Machine.{Source as SourceState};

    ghost Value = { SourceState };

    ghost view = { λ s. record { node = s.node; rows = s.rows; count = s.count; lanes = s.lanes.items } };
}

impl Source {
    /// A source of which nothing was read.
    pub(crate) fn new(node: Node, rows: Bag, lanes: Vec<Lane>) -> Source
        ensures { result ≡ record { node = node; rows = rows; count = 0; lanes = lanes.items } }
    {
        Source {
            node,
            rows,
            count: 0,
            lanes,
        }
    }

    /// Where the first unread row goes.
    pub(crate) fn next_receivers(&self, job: &Job) -> Receivers
        ensures { result ≡ next_receivers job.now self.now }
    {
        match self.rows.rows().get(self.count) {
            Some(row) => job.targets(row, self.node),
            None => Receivers::Nobody,
        }
    }

    /// The node, and all of its rows.
    pub(crate) fn rows(&self) -> (Node, &[Row])
        ensures node { result.0 ≡ self.now.node }
        ensures rows { result.1.now ≡ self.now.rows }
    {
        (self.node, self.rows.rows())
    }

    /// Whether there is an unread row, and room for it at its receivers.
    pub(crate) fn can_read(&self, nodes: NodeCount, next: Receivers) -> bool
        requires { nodes ≤ length self.now.lanes }
        ensures { result ≡ can_read nodes next self.now }
    {
        self.count < self.rows.rows().len() && have_room(nodes, next, self.lanes.as_slice())
    }

    /// Whether the packet to a target can go on its link.
    pub(crate) fn can_flush(&self, to: usize) -> bool
        ensures { result ≡ can_flush (lane_at to self.now.lanes) }
    {
        match self.lanes.as_slice().get(to) {
            Some(lane) => lane.can_flush(),
            None => false,
        }
    }

    /// How many packets are on the link to a target.
    pub(crate) fn link_len(&self, to: usize) -> usize
        ensures { result ≡ length (lane_at to self.now.lanes).link }
    {
        match self.lanes.as_slice().get(to) {
            Some(lane) => lane.link_len(),
            None => 0,
        }
    }

    /// The first unread row is read, and copied into the packets to its receivers. Out of memory leaves the source as
    /// it was.
    pub(crate) fn read(
        &mut self,
        alloc: Global,
        nodes: NodeCount,
        next: Receivers,
        pool: &mut Pool,
    ) -> Result<(), NoMemory>
        requires enabled { can_read nodes next self.old ≡ true }
        requires wide { nodes ≤ length self.old.lanes }
        ensures ok { OnOk result (self.new ≡ after_read nodes next self.old) }
        ensures err { OnErr result (self.new ≡ self.old) }
    {
        let row = &self.rows.rows()[self.count];
        deal(alloc, nodes, next, row, &mut self.lanes, pool)?;
        self.count += 1;
        Ok(())
    }

    /// The packet to a target goes on its link.
    pub(crate) fn flush(&mut self, to: usize)
        requires { can_flush (lane_at to self.old.lanes) ≡ true }
        ensures { self.new ≡ with_lane to (flushed (lane_at to self.old.lanes)) self.old }
    {
        self.lanes[to].flush();
    }

    /// Takes the first packet from the link to a target.
    pub(crate) fn deliver(&mut self, to: usize) -> Option<Box<Packet>>
        requires { to < length self.old.lanes }
        ensures rest { self.new ≡ with_lane to (delivered (lane_at to self.old.lanes)) self.old }
        ensures first { parcel_list result ≡ take 1 (lane_at to self.old.lanes).link }
    {
        self.lanes[to].deliver()
    }
}

// Whether no packet to these receivers is full.
fn have_room(nodes: NodeCount, receivers: Receivers, lanes: &[Lane]) -> bool
    requires { nodes ≤ length lanes.now }
    ensures { result ≡ have_room nodes receivers lanes.now }
{
    match receivers {
        Receivers::Nobody => true,
        Receivers::One(target) => match lanes.get(place(nodes, target)) {
            Some(lane) => lane.has_room(),
            None => true,
        },
        Receivers::AllCompute => all_have_room(&lanes[..nodes.get() as usize]),
    }
}

// Whether no packet on these lanes is full.
fn all_have_room(lanes: &[Lane]) -> bool
    ensures { result ≡ list_all has_room lanes.now }
{
    lanes.iter().all(|lane| lane.has_room())
}

// Copies the row into the packets to its receivers.
fn deal(
    alloc: Global,
    nodes: NodeCount,
    receivers: Receivers,
    row: &Row,
    lanes: &mut Vec<Lane>,
    pool: &mut Pool,
) -> Result<(), NoMemory>
    requires room { have_room nodes receivers lanes.old.items ≡ true }
    requires wide { nodes ≤ vec_len lanes.old }
    ensures ok { OnOk result (lanes.new.items ≡ dealt nodes receivers row.now lanes.old.items) }
    ensures err { OnErr result (lanes.new.items ≡ lanes.old.items) }
{
    match receivers {
        Receivers::Nobody => Ok(()),
        Receivers::One(target) => feed_one(alloc, row, lanes, place(nodes, target), pool),
        Receivers::AllCompute => feed_first(alloc, row, lanes, nodes.get() as usize, pool),
    }
}

// Copies the row into the packet of one lane, if there is such a lane.
fn feed_one(
    alloc: Global,
    row: &Row,
    lanes: &mut Vec<Lane>,
    at: usize,
    pool: &mut Pool,
) -> Result<(), NoMemory>
    requires room { has_room (lane_at at lanes.old.items) ≡ true }
    ensures ok { OnOk result (lanes.new.items ≡ slice_set lanes.old.items at (fed row.now (lane_at at lanes.old.items))) }
    ensures err { OnErr result (lanes.new.items ≡ lanes.old.items) }
{
    let copy = row.try_copy(alloc)?;
    let spare = pool.take(alloc)?;
    if at < lanes.len() {
        lanes[at].push(copy, spare, pool);
    }
    Ok(())
}

// Copies the row into the packets of the first lanes. All copies are made before the first is put, so that want of
// memory leaves the lanes as they were.
fn feed_first(
    alloc: Global,
    row: &Row,
    lanes: &mut Vec<Lane>,
    count: usize,
    pool: &mut Pool,
) -> Result<(), NoMemory>
    requires room { list_all has_room (take count lanes.old.items) ≡ true }
    requires within { count ≤ vec_len lanes.old }
    ensures ok { OnOk result (lanes.new.items ≡ map (fed row.now) (take count lanes.old.items) ++ drop count lanes.old.items) }
    ensures err { OnErr result (lanes.new.items ≡ lanes.old.items) }
{
    if count == 0 {
        return Ok(());
    }
    let copy = row.try_copy(alloc)?;
    let spare = pool.take(alloc)?;
    feed_first(alloc, row, lanes, count - 1, pool)?;
    lanes[count - 1].push(copy, spare, pool);
    Ok(())
}
