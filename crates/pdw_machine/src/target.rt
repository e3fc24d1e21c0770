ghost use Rattle.std.specs.Prelude.{◌≡◌, ◌<◌, [], ◌∷◌, length, IfOk, OnOk, OnErr};
ghost use Rattle.pdw_machine.specs.Machine.{copied, no_target, received};
ghost use Rattle.pdw_machine.specs.declared.lane.TheConstants.{MOST_PACKETS};

use crate::lane::MOST_PACKETS;
use crate::pool::Pool;
use pdw_base::{Bag, NoMemory};
use pdw_packet::Packet;
use std::alloc::Global;
use std::collections::VecDeque;
use std::marker::Model;

/// Where rows arrive: the packets that came, and the rows that are written.
#[derive(Drop)]
pub(crate) struct Target {
    inbox: VecDeque<Box<Packet>>,
    written: Bag,
}

impl Model for Target {
    ghost use Rattle.std.specs.Prelude.{◌≤◌};
    ghost use Rattle.std.specs.VecDeque.{deque_capacity};
    ghost use Rattle.pdw_machine.specs.Machine.{Target as TargetState};
    ghost use Rattle.pdw_machine.specs.Lane.{parcels};

    ghost Value = { TargetState };

    ghost view = { λ t. record { inbox = parcels t.inbox.items; written = t.written } };

    ghost invariant = { λ t. 4 ≤ deque_capacity t.inbox };
}

impl Target {
    /// A target to which nothing came.
    pub(crate) fn new(alloc: Global) -> Result<Target, NoMemory>
        ensures { IfOk result (λ target. target ≡ no_target) }
    {
        Ok(Target {
            inbox: VecDeque::with_capacity(alloc, MOST_PACKETS)?,
            written: Bag::new(alloc),
        })
    }

    /// How many packets are in the inbox.
    pub(crate) fn inbox_len(&self) -> usize
        ensures { result ≡ length self.now.inbox }
    {
        self.inbox.len()
    }

    /// The packet goes last into the inbox.
    pub(crate) fn receive(&mut self, packet: Box<Packet>)
        requires { length self.old.inbox < MOST_PACKETS }
        ensures { self.new ≡ received (packet.value ∷ []) self.old }
    {
        self.inbox.push_back_reserved(packet);
    }

    /// Writes the rows of the inbox's first packet. Out of memory leaves the target as it was.
    pub(crate) fn copy(&mut self, pool: &mut Pool) -> Result<(), NoMemory>
        ensures ok { OnOk result (self.new ≡ copied self.old) }
        ensures err { OnErr result (self.new ≡ self.old) }
    {
        if let Some(packet) = self.inbox.front_mut() {
            packet.drain_into(&mut self.written)?;
        }
        if let Some(packet) = self.inbox.pop_front() {
            pool.put(packet);
        }
        Ok(())
    }

    /// The rows that are written.
    pub(crate) fn into_written(self) -> Bag
        ensures { result ≡ self.written }
    {
        self.written
    }
}
