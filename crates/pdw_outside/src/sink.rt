ghost use Rattle.std.specs.Prelude.{◌≤◌, ℕ, List, [], length, take, Option, IfOk, OnErr};
ghost use Rattle.pdw_outside.specs.Sink.{Adds, CountsWrite};

use crate::Failed;

/// Where a text goes.
pub trait Sink {
    /// The bytes written, where they are told.
    ghost written: { Self → Option (List ℕ) };

    /// How often writing failed. It never falls, and stands still at 2^64 - 1.
    ghost faults: { Self → ℕ };

    /// Writes the first bytes of the piece, and answers how many.
    fn write(&mut self, piece: &[u8]) -> Result<usize, Failed>
        ensures within { IfOk result (λ count. count ≤ length piece.now) }
        ensures appended { IfOk result (λ count. Adds (written self.old) (written self.new) (take count piece.now)) }
        ensures nothing { OnErr result (Adds (written self.old) (written self.new) []) }
        ensures faults { CountsWrite (faults self.old) (faults self.new) piece.now result }
        ensures never_falls { faults self.old ≤ faults self.new };
}
