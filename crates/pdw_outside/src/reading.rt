ghost use Rattle.std.specs.Prelude.{◌≡◌, ◌<◌, ◌≤◌, ◌+◌, ◌-◌, ◌^◌, ◌++◌, ℕ, List, length, vec_len, IfOk, OnOk, IsErrOf};
ghost use Rattle.pdw_outside.specs.Faults.{Rose};
ghost use Rattle.pdw_outside.specs.Whole.{IsContent, IsLongerThan, IsStart, SameUnlessFailed};

use crate::{Failed, Files};
use std::alloc::{AllocError, Global};
use std::error::Error;
use std::fmt;

/// Why a file was not read whole.
#[derive(Clone, Copy, Debug, PartialEq, Eq)]
pub enum ReadStop {
    /// A read failed.
    Failed,
    /// The file has more bytes than the limit.
    TooLong,
    /// There was no memory for its bytes.
    Memory,
}

impl fmt::Display for ReadStop {
    ghost use Rattle.std.specs.Prelude.{Some};
    ghost use Rattle.pdw_outside.specs.Whole.{stop_text};

    ghost output = { λ stop. Some (stop_text stop) };

    fn fmt<W: fmt::Write>(&self, f: &mut fmt::Formatter<W>) -> fmt::Result {
        f.write_str(match self {
            ReadStop::Failed => "the file cannot be read",
            ReadStop::TooLong => "the file is too long",
            ReadStop::Memory => "out of memory",
        })
    }
}

impl Error for ReadStop {}

impl From<Failed> for ReadStop {
    ghost use Rattle.pdw_outside.specs.declared.reading.ReadStop.TheVariants as stop;

    ghost from_gives = { λ _ e. e ≡ stop.Failed };

    fn from(_error: Failed) -> ReadStop {
        ReadStop::Failed
    }
}

impl From<AllocError> for ReadStop {
    ghost use Rattle.pdw_outside.specs.declared.reading.ReadStop.TheVariants as stop;

    ghost from_gives = { λ _ e. e ≡ stop.Memory };

    fn from(_error: AllocError) -> ReadStop {
        ReadStop::Memory
    }
}

// How many bytes one read asks for at most.
const PIECE: usize = 64 * 1024;

/// Reads a whole file, and at most one byte of it more than `limit`.
pub fn read_whole<F: Files>(
    alloc: Global,
    files: &mut F,
    name: &str,
    limit: usize,
) -> Result<Vec<u8>, ReadStop>
    requires { limit < 2 ^ 64 - 1 }
    ensures whole { IfOk result (λ found. IsContent (F.bytes files.old name.now) found.items) }
    ensures fits { IfOk result (λ found. length found.items ≤ limit) }
    ensures too_long { IsErrOf result ReadStop.TooLong → IsLongerThan limit (F.bytes files.old name.now) }
    ensures bytes { F.bytes files.new ≡ F.bytes files.old }
    ensures failed { IsErrOf result ReadStop.Failed → Rose (F.faults files.old name.now) (F.faults files.new name.now) }
    ensures quiet { SameUnlessFailed result (F.faults files.old) (F.faults files.new) }
    ensures never_falls { (other : List ℕ) → F.faults files.old other ≤ F.faults files.new other }
{
    let mut piece = zeros(alloc, PIECE)?;
    let mut taken = Vec::new(alloc);
    while taken.len() <= limit {
        let most = limit + 1 - taken.len();
        let count = read_more(files, name, &mut piece, most, &mut taken)?;
        if count == 0 {
            return Ok(taken);
        }
    }
    Err(ReadStop::TooLong)
}

// One more read behind what was taken, of at most so many bytes. Answers how many it gave.
fn read_more<F: Files>(
    files: &mut F,
    name: &str,
    piece: &mut [u8],
    most: usize,
    taken: &mut Vec<u8>,
) -> Result<usize, ReadStop>
    requires some { 0 < most }
    requires room { 0 < length piece.old }
    ensures more { IfOk result (λ count. vec_len taken.new ≡ vec_len taken.old + count) }
    ensures most { IfOk result (λ count. count ≤ most) }
    ensures start { OnOk result (IsStart (F.bytes files.old name.now) taken.old.items → IsStart (F.bytes files.old name.now) taken.new.items) }
    ensures end { IfOk result (λ count. count ≡ 0 → IsStart (F.bytes files.old name.now) taken.old.items → IsContent (F.bytes files.old name.now) taken.new.items) }
    ensures bytes { F.bytes files.new ≡ F.bytes files.old }
    ensures not_too_long { IsErrOf result ReadStop.TooLong → ⊥ }
    ensures failed { IsErrOf result ReadStop.Failed → Rose (F.faults files.old name.now) (F.faults files.new name.now) }
    ensures quiet { SameUnlessFailed result (F.faults files.old) (F.faults files.new) }
    ensures never_falls { (other : List ℕ) → F.faults files.old other ≤ F.faults files.new other }
{
    let room = piece.len().min(most);
    let count = files.read(name, taken.len() as u64, &mut piece[..room])?;
    taken.extend_from_slice(&piece[..count])?;
    Ok(count)
}

fn zeros(alloc: Global, count: usize) -> Result<Vec<u8>, AllocError>
    ensures { IfOk result (λ bytes. vec_len bytes ≡ count) }
{
    vec![in alloc; 0; count]
}
