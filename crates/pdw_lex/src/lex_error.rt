use pdw_base::{MOST_TEXT_BYTES, NoMemory};
use std::alloc::{AllocError, AllocFailed};
use thiserror::Error;

/// Why a script has no tokens. `at` is the place of the fault, in bytes from the start of the script.
#[derive(Clone, Copy, Debug, PartialEq, Eq, Error)]
pub enum LexError {
    /// The bytes up to `at` are UTF-8, and no longer front of the script is.
    #[error("not UTF-8 at byte {at}")]
    NotUtf8 { at: u32 },
    /// The byte begins no token.
    #[error("no token begins at byte {at}")]
    BadChar { at: u32 },
    /// The text that begins here has no end.
    #[error("the text at byte {at} has no end")]
    OpenText { at: u32 },
    /// The number that begins here is greater than a number may be.
    #[error("the number at byte {at} is too great")]
    BigNumber { at: u32 },
    /// The text that begins here has more bytes than a text may have.
    #[error("the text at byte {at} has more than {most} bytes", most = MOST_TEXT_BYTES)]
    LongText { at: u32 },
    /// There was not the memory for the tokens.
    #[error("out of memory")]
    Memory,
}

impl From<NoMemory> for LexError {
    ghost use Rattle.std.specs.Prelude.{◌≡◌};
    ghost use Rattle.pdw_lex.specs.declared.lex_error.LexError.TheVariants.{Memory};

    ghost from_gives = { λ _ e. e ≡ Memory };

    fn from(_error: NoMemory) -> LexError {
        LexError::Memory
    }
}

impl From<AllocError> for LexError {
    ghost use Rattle.std.specs.Prelude.{◌≡◌};
    ghost use Rattle.pdw_lex.specs.declared.lex_error.LexError.TheVariants.{Memory};

    ghost from_gives = { λ _ e. e ≡ Memory };

    fn from(_error: AllocError) -> LexError {
        LexError::Memory
    }
}

impl<T: Drop> From<AllocFailed<T>> for LexError {
    ghost use Rattle.std.specs.Prelude.{◌≡◌};
    ghost use Rattle.pdw_lex.specs.declared.lex_error.LexError.TheVariants.{Memory};

    ghost from_gives = { λ _ e. e ≡ Memory };

    fn from(_error: AllocFailed<T>) -> LexError {
        LexError::Memory
    }
}
