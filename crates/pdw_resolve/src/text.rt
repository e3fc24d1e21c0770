//! Texts that are made while a statement is judged.

ghost use Rattle.std.specs.Prelude.{◌≡◌, IfOk};

use pdw_base::{NoMemory, Str};
use std::alloc::Global;

/// An owned text.
pub fn text_from(alloc: Global, text: &str) -> Result<Str, NoMemory>
    ensures { IfOk result (λ owned. owned ≡ text.now) }
{
    Ok(Str::from_bytes(alloc, text.as_bytes())?.unwrap())
}
