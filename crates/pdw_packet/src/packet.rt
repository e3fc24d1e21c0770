ghost use Rattle.std.specs.Prelude.{◌≡◌, ◌<◌, ◌≤◌, ◌+◌, [], ◌∷◌, ◌++◌, length, IfOk, OnOk, OnErr};
ghost use Rattle.pdw_packet.specs.Packet.{empty_parcel, with_rows};

use pdw_base::{Bag, NoMemory, Node, Row};
use std::alloc::Global;
use std::marker::Model;

/// How many rows a packet has at most.
pub const MOST_ROWS: usize = 64;

/// Rows on their way from a node to a node: at most 64, for which there is room from the start.
#[derive(Drop)]
pub struct Packet {
    from: Node,
    to: Node,
    rows: Vec<Row>,
}

impl Model for Packet {
    ghost use Rattle.std.specs.Prelude.{◌≤◌, vec_len, vec_capacity};
    ghost use Rattle.std.specs.Coded.{coded_list};
    ghost use Rattle.pdw_packet.specs.Packet.{Parcel};

    ghost Value = { Parcel };

    ghost view = { λ p. record { from = p.from; to = p.to; rows = p.rows.items } };

    ghost invariant = { λ p. (vec_len p.rows ≤ 64) × (64 ≤ vec_capacity p.rows) };
}

impl Packet {
    /// A packet without rows.
    pub fn new(alloc: Global, from: Node, to: Node) -> Result<Box<Packet>, NoMemory>
        ensures { IfOk result (λ packet. packet.value ≡ empty_parcel from to) }
    {
        let rows = Vec::with_capacity(alloc, MOST_ROWS)?;
        match Box::new(alloc, Packet { from, to, rows }) {
            Ok(packet) => Ok(packet),
            Err(_) => Err(NoMemory),
        }
    }

    /// How many rows it has.
    pub fn len(&self) -> usize
        ensures count { result ≡ length self.now.rows }
        ensures most { result ≤ MOST_ROWS }
    {
        self.rows.len()
    }

    /// Puts the row last.
    pub fn push(&mut self, row: Row)
        requires { length self.old.rows < MOST_ROWS }
        ensures { self.new ≡ with_rows (self.old.rows ++ row ∷ []) self.old }
    {
        self.rows.push_reserved(row);
    }

    /// Sends an empty packet another way.
    pub fn reset(&mut self, from: Node, to: Node)
        requires { self.old.rows ≡ [] }
        ensures { self.new ≡ empty_parcel from to }
    {
        self.from = from;
        self.to = to;
    }

    /// Moves all rows to the end of the bag, in order. Out of memory leaves both as they were.
    pub fn drain_into(&mut self, bag: &mut Bag) -> Result<(), NoMemory>
        ensures ok { OnOk result (bag.new ≡ bag.old ++ self.old.rows) }
        ensures emptied { OnOk result (self.new ≡ with_rows [] self.old) }
        ensures err { OnErr result (bag.new ≡ bag.old) }
        ensures kept { OnErr result (self.new ≡ self.old) }
    {
        bag.append(&mut self.rows)
    }
}
