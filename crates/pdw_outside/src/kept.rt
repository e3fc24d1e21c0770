ghost use Rattle.std.specs.Prelude.{◌≡◌, ◌≤◌, ◌+◌, ◌++◌, [], length, vec_len, vec_capacity, IfOk};
ghost use Rattle.pdw_outside.specs.Page.{Page, extended};

use pdw_base::NoMemory;
use std::alloc::Global;
use std::marker::Model;

/// A text that is kept as far as there is room for it. No write takes memory.
#[derive(Drop)]
pub(crate) struct Kept {
    bytes: Vec<u8>,
    room: usize,
    lost: u64,
}

impl Model for Kept {
    ghost use Rattle.std.specs.Prelude.{◌≤◌, vec_len, vec_capacity};
    ghost use Rattle.pdw_outside.specs.Page.{Page};

    ghost Value = { Page };

    ghost view = { λ k. record { kept = k.bytes.items; room = k.room; lost = k.lost } };

    ghost invariant = { λ k. (vec_len k.bytes ≤ k.room) × (k.room ≤ vec_capacity k.bytes) };
}

impl Kept {
    pub(crate) fn new(alloc: Global, room: usize) -> Result<Kept, NoMemory>
        ensures { IfOk result (λ kept. kept ≡ record { kept = []; room = room; lost = 0 }) }
    {
        Ok(Kept {
            bytes: Vec::with_capacity(alloc, room)?,
            room,
            lost: 0,
        })
    }

    pub(crate) fn bytes(&self) -> &[u8]
        ensures { result.now ≡ self.now.kept }
    {
        &self.bytes
    }

    /// Keeps what there is room for, and counts the rest.
    pub(crate) fn extend(&mut self, piece: &[u8])
        ensures { self.new ≡ extended self.old piece.now }
    {
        let count = piece.len().min(self.room - self.bytes.len());
        push_all(&mut self.bytes, &piece[..count]);
        self.lost = self.lost.saturating_add((piece.len() - count) as u64);
    }
}

// Adds bytes that there is memory for.
fn push_all(bytes: &mut Vec<u8>, more: &[u8])
    requires { vec_len bytes.old + length more.now ≤ vec_capacity bytes.old }
    ensures items { bytes.new.items ≡ bytes.old.items ++ more.now }
    ensures len { vec_len bytes.new ≡ vec_len bytes.old + length more.now }
    ensures capacity { vec_capacity bytes.old ≤ vec_capacity bytes.new }
{
    bytes.extend_from_slice(more).unwrap();
}
