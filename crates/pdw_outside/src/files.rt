ghost use Rattle.std.specs.Prelude.{◌≡◌, ◌<◌, ◌≤◌, ℕ, List, length, Option, IfOk, OnOk, OnErr};
ghost use Rattle.pdw_outside.specs.Faults.{Rose};
ghost use Rattle.pdw_outside.specs.Files.{GivesFrom, EndsBy};

use crate::Failed;

/// Files by name.
pub trait Files {
    /// The bytes of each name, where they are told.
    ghost bytes: { Self → List ℕ → Option (List ℕ) };

    /// How often reading each name failed. It never falls, and stands still at 2^64 - 1.
    ghost faults: { Self → List ℕ → ℕ };

    /// Reads bytes from place `at` into the buffer, and answers how many.
    fn read(&mut self, name: &str, at: u64, buf: &mut [u8]) -> Result<usize, Failed>
        ensures within { IfOk result (λ count. count ≤ length buf.old) }
        ensures given { IfOk result (λ count. GivesFrom (bytes self.old name.now) at count buf.new) }
        ensures at_end { IfOk result (λ count. count ≡ 0 → 0 < length buf.old → EndsBy (bytes self.old name.now) at) }
        ensures bytes { bytes self.new ≡ bytes self.old }
        ensures quiet { OnOk result (faults self.new ≡ faults self.old) }
        ensures cause { OnErr result (Rose (faults self.old name.now) (faults self.new name.now)) }
        ensures never_falls { (other : List ℕ) → faults self.old other ≤ faults self.new other };
}
