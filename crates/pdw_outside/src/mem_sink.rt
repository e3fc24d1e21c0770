ghost use Rattle.std.specs.Prelude.{◌≡◌, ◌≤◌, [], IfOk};
ghost use Rattle.pdw_outside.specs.MemSink.{ScriptedSink, write_answer, after_write};
ghost use Rattle.pdw_outside.specs.Page.{told};
ghost use Rattle.pdw_outside.specs.Sink.{CountsWrite};

use crate::kept::Kept;
use crate::schedule::Schedule;
use crate::{Failed, Sink};
use pdw_base::NoMemory;
use std::alloc::Global;
use std::marker::Model;

/// A text in memory that fails where it is told to, and that takes a text in pieces. It keeps the bytes that there is
/// room for, and tells its bytes as long as it has kept all of them.
#[derive(Drop)]
pub struct MemSink {
    text: Kept,
    calls: Schedule,
    piece: usize,
    faults: u64,
}

impl Model for MemSink {
    ghost use Rattle.std.specs.Prelude.{◌≤◌};
    ghost use Rattle.pdw_outside.specs.MemSink.{ScriptedSink};

    ghost Value = { ScriptedSink };

    ghost view = { λ s. record { text = s.text; calls = s.calls; piece = s.piece; faults = s.faults } };

    ghost invariant = { λ s. 1 ≤ s.piece };
}

impl MemSink {
    /// An empty text with room for `room` bytes, of which a write takes no more than `piece`. Write calls are numbered
    /// from 1, and those whose number is in `fails` fail. No write takes memory.
    pub fn new(
        alloc: Global,
        fails: Vec<u64>,
        piece: usize,
        room: usize,
    ) -> Result<MemSink, NoMemory>
        requires { 1 ≤ piece }
        ensures { IfOk result (λ sink. sink ≡ record { text = record { kept = []; room = room; lost = 0 }; calls = record { made = 0; fails = fails.items }; piece = piece; faults = 0 }) }
    {
        Ok(MemSink {
            text: Kept::new(alloc, room)?,
            calls: Schedule::new(fails),
            piece,
            faults: 0,
        })
    }

    /// The bytes that were kept.
    pub fn written(&self) -> &[u8]
        ensures { result.now ≡ self.now.text.kept }
    {
        self.text.bytes()
    }
}

impl Sink for MemSink {
    ghost written = { λ s. told s.text };

    ghost faults = { λ s. s.faults };

    fn write(&mut self, piece: &[u8]) -> Result<usize, Failed>
        ensures answer { result ≡ write_answer self.old piece.now }
        ensures after { self.new ≡ after_write self.old piece.now }
        ensures faults { CountsWrite self.old.faults self.new.faults piece.now result }
        ensures never_falls { self.old.faults ≤ self.new.faults }
    {
        if self.calls.next_fails() {
            self.faults = self.faults.saturating_add(1);
            return Err(Failed);
        }
        let count = piece.len().min(self.piece);
        self.text.extend(&piece[..count]);
        Ok(count)
    }
}
