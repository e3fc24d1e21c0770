ghost use Rattle.std.specs.Prelude.{◌≡◌, ◌<◌, ◌≤◌, ℕ, [], length, take, IfOk, OnOk, OnErr};
ghost use Rattle.pdw_outside.specs.Faults.{Rose};
ghost use Rattle.pdw_outside.specs.Sink.{Adds};

use crate::{Failed, Sink};

/// Writes all the bytes. A write that takes none of them ends it as one that fails.
pub fn write_whole<S: Sink>(sink: &mut S, bytes: &[u8]) -> Result<(), Failed>
    ensures ok { OnOk result (Adds (S.written sink.old) (S.written sink.new) bytes.now) }
    ensures cut { OnErr result ((count : ℕ) × Adds (S.written sink.old) (S.written sink.new) (take count bytes.now)) }
    ensures quiet { OnOk result (S.faults sink.new ≡ S.faults sink.old) }
    ensures failed { OnErr result (Rose (S.faults sink.old) (S.faults sink.new)) }
    ensures never_falls { S.faults sink.old ≤ S.faults sink.new }
{
    let mut done = 0;
    while done < bytes.len() {
        let count = write_more(sink, &bytes[done..])?;
        done += count;
    }
    Ok(())
}

// Writes the first bytes, and answers how many. It fails where it takes none.
#[tactic(auto, using(crate::proofs::SinkLemmas::counts_some, crate::proofs::SinkLemmas::counts_none))]
fn write_more<S: Sink>(sink: &mut S, bytes: &[u8]) -> Result<usize, Failed>
    requires { 0 < length bytes.now }
    ensures some { IfOk result (λ count. 0 < count) }
    ensures within { IfOk result (λ count. count ≤ length bytes.now) }
    ensures ok { IfOk result (λ count. Adds (S.written sink.old) (S.written sink.new) (take count bytes.now)) }
    ensures nothing { OnErr result (Adds (S.written sink.old) (S.written sink.new) []) }
    ensures quiet { OnOk result (S.faults sink.new ≡ S.faults sink.old) }
    ensures failed { OnErr result (Rose (S.faults sink.old) (S.faults sink.new)) }
    ensures never_falls { S.faults sink.old ≤ S.faults sink.new }
{
    match sink.write(bytes)? {
        0 => Err(Failed),
        count => Ok(count),
    }
}
