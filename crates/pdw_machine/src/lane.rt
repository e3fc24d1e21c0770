ghost use Rattle.std.specs.Prelude.{◌≡◌, [], length, take, true, IfOk};
ghost use Rattle.pdw_machine.specs.Lane.{parcel_list};
ghost use Rattle.pdw_machine.specs.Machine.{can_flush, delivered, fed, flushed, has_room};

use crate::pool::Pool;
use pdw_base::{NoMemory, Node, Row};
use pdw_packet::{MOST_ROWS, Packet};
use std::alloc::Global;
use std::collections::VecDeque;
use std::marker::Model;

/// How many packets a link or an inbox has at most.
pub const MOST_PACKETS: usize = 4;

/// The way from a source to a target: the packet that is filled, and the packets on the link.
#[derive(Drop)]
pub(crate) struct Lane {
    from: Node,
    to: Node,
    filling: Option<Box<Packet>>,
    link: VecDeque<Box<Packet>>,
}

impl Model for Lane {
    ghost use Rattle.std.specs.Prelude.{◌≤◌};
    ghost use Rattle.std.specs.VecDeque.{deque_capacity};
    ghost use Rattle.pdw_machine.specs.Machine.{Lane as LaneState};
    ghost use Rattle.pdw_machine.specs.Lane.{IsAddressed, filling_rows, parcels};

    ghost Value = { LaneState };

    ghost view = { λ l. record { from = l.from; to = l.to; filling = filling_rows l.filling; link = parcels l.link.items } };

    ghost invariant = { λ l. IsAddressed l.from l.to l.filling × (4 ≤ deque_capacity l.link) };
}

impl Lane {
    /// A lane with nothing on it.
    pub(crate) fn new(alloc: Global, from: Node, to: Node) -> Result<Lane, NoMemory>
        ensures { IfOk result (λ lane. lane ≡ record { from = from; to = to; filling = []; link = [] }) }
    {
        Ok(Lane {
            from,
            to,
            filling: None,
            link: VecDeque::with_capacity(alloc, MOST_PACKETS)?,
        })
    }

    /// Whether the packet that is filled is not full.
    pub(crate) fn has_room(&self) -> bool
        ensures { result ≡ has_room self.now }
    {
        match &self.filling {
            Some(packet) => packet.len() < MOST_ROWS,
            None => true,
        }
    }

    /// Whether a packet can go on the link.
    pub(crate) fn can_flush(&self) -> bool
        ensures { result ≡ can_flush self.now }
    {
        match &self.filling {
            Some(packet) => packet.len() > 0 && self.link.len() < MOST_PACKETS,
            None => false,
        }
    }

    /// How many packets are on the link.
    pub(crate) fn link_len(&self) -> usize
        ensures { result ≡ length self.now.link }
    {
        self.link.len()
    }

    /// Puts the row into the packet that is filled. The spare packet is used if there is none, and else goes to the pool.
    pub(crate) fn push(&mut self, row: Row, mut spare: Box<Packet>, pool: &mut Pool)
        requires room { has_room self.old ≡ true }
        requires spare { spare.value.rows ≡ [] }
        ensures { self.new ≡ fed row self.old }
    {
        match &mut self.filling {
            Some(packet) => {
                packet.push(row);
                pool.put(spare);
            }
            None => {
                spare.reset(self.from, self.to);
                spare.push(row);
                self.filling = Some(spare);
            }
        }
    }

    /// The packet that is filled goes last on the link.
    pub(crate) fn flush(&mut self)
        requires { can_flush self.old ≡ true }
        ensures { self.new ≡ flushed self.old }
    {
        if let Some(packet) = self.filling.take() {
            self.link.push_back_reserved(packet);
        }
    }

    /// Takes the first packet from the link.
    pub(crate) fn deliver(&mut self) -> Option<Box<Packet>>
        ensures rest { self.new ≡ delivered self.old }
        ensures first { parcel_list result ≡ take 1 self.old.link }
    {
        self.link.pop_front()
    }
}
