ghost use Rattle.std.specs.Prelude.{◌≡◌, IfOk, IfErr};
ghost use Rattle.std.specs.Str.{IsUtf8};
ghost use Rattle.pdw_lex.specs.declared.lex_error.LexError.TheVariants.{Memory};

use crate::LexError;
use pdw_base::Str;
use std::alloc::Global;

/// The text of bytes in UTF-8.
pub(crate) fn text_from(alloc: Global, bytes: &[u8]) -> Result<Str, LexError>
    requires { IsUtf8 bytes.now }
    ensures text { IfOk result (λ text. text ≡ bytes.now) }
    ensures fault { IfErr result (λ e. e ≡ Memory) }
{
    Ok(Str::from_bytes(alloc, bytes)?.unwrap())
}
