ghost use Rattle.std.specs.Prelude.{◌≡◌, [], length, IfOk};
ghost use Rattle.pdw_outside.specs.Page.{Page, extended, told};

use crate::kept::Kept;
use crate::{Failed, Sink};
use pdw_base::NoMemory;
use std::alloc::Global;
use std::marker::Model;

/// A text in memory, whose writes take each piece whole. It keeps the bytes that there is room for, and tells its
/// bytes as long as it has kept all of them.
#[derive(Drop)]
pub struct HonestSink {
    text: Kept,
}

impl Model for HonestSink {
    ghost use Rattle.pdw_outside.specs.Page.{Page};

    ghost Value = { Page };

    ghost view = { λ s. s.text };
}

impl HonestSink {
    /// An empty text with room for this many bytes. No write takes memory after this.
    pub fn new(alloc: Global, room: usize) -> Result<HonestSink, NoMemory>
        ensures { IfOk result (λ sink. sink ≡ record { kept = []; room = room; lost = 0 }) }
    {
        Ok(HonestSink {
            text: Kept::new(alloc, room)?,
        })
    }

    /// The bytes that were kept.
    pub fn written(&self) -> &[u8]
        ensures { result.now ≡ self.now.kept }
    {
        self.text.bytes()
    }
}

impl Sink for HonestSink {
    ghost written = { told };

    ghost faults = { λ s. 0 };

    fn write(&mut self, piece: &[u8]) -> Result<usize, Failed>
        ensures whole { result ≡ Ok (length piece.now) }
        ensures kept { self.new ≡ extended self.old piece.now }
    {
        self.text.extend(piece);
        Ok(piece.len())
    }
}
