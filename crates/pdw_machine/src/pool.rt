ghost use Rattle.std.specs.Prelude.{◌≡◌, [], IfOk};

use pdw_base::{NoMemory, Node};
use pdw_packet::Packet;
use std::alloc::Global;
use std::marker::Model;

/// Empty packets that wait to be used again.
#[derive(Drop)]
pub(crate) struct Pool {
    packets: Vec<Box<Packet>>,
}

impl Model for Pool {
    ghost use Rattle.std.specs.Prelude.{◌≡◌, ℕ, [], vec_len, All};

    ghost Value = { ℕ };

    ghost view = { λ p. vec_len p.packets };

    ghost invariant = { λ p. All (λ packet. packet.value.rows ≡ []) p.packets.items };
}

impl Pool {
    pub(crate) fn new(alloc: Global) -> Pool {
        Pool {
            packets: Vec::new(alloc),
        }
    }

    /// An empty packet: one that waits, or a new one.
    pub(crate) fn take(&mut self, alloc: Global) -> Result<Box<Packet>, NoMemory>
        ensures { IfOk result (λ packet. packet.value.rows ≡ []) }
    {
        match self.packets.pop() {
            Some(packet) => Ok(packet),
            None => Packet::new(alloc, Node::Control, Node::Control),
        }
    }

    /// Keeps an empty packet. Where there is no memory to keep it in, it is let go.
    pub(crate) fn put(&mut self, packet: Box<Packet>)
        requires { packet.value.rows ≡ [] }
    {
        if self.packets.push(packet).is_err() {}
    }
}
