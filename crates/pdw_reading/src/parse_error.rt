//! Why tokens are no statements.

use pdw_base::NoMemory;
use std::alloc::{AllocError, AllocFailed};
use thiserror::Error;

/// Why tokens are no statements. `at` is the place of the fault, in bytes from the start of the script.
#[derive(Clone, Copy, Debug, PartialEq, Eq, Error)]
pub enum ParseError {
    /// No script has the token at this place after the tokens before it, or the script ends too early.
    #[error("no statement goes on at byte {at}")]
    Syntax { at: u32 },
    /// The parenthesis at this place is one too many to be open.
    #[error("too many parentheses are open at byte {at}")]
    TooDeep { at: u32 },
    /// There was not the memory for the statements.
    #[error("out of memory")]
    Memory,
}

/// Why a rule could not be read. The tokens then stand at the fault.
#[derive(Clone, Copy)]
pub enum Stop {
    Syntax,
    TooDeep,
    Memory,
}

impl From<NoMemory> for Stop {
    ghost use Rattle.std.specs.Prelude.{◌≡◌};
    ghost use Rattle.pdw_reading.specs.declared.parse_error.Stop.TheVariants.{Memory};

    ghost from_gives = { λ _ e. e ≡ Memory };

    fn from(_error: NoMemory) -> Stop {
        Stop::Memory
    }
}

impl From<AllocError> for Stop {
    ghost use Rattle.std.specs.Prelude.{◌≡◌};
    ghost use Rattle.pdw_reading.specs.declared.parse_error.Stop.TheVariants.{Memory};

    ghost from_gives = { λ _ e. e ≡ Memory };

    fn from(_error: AllocError) -> Stop {
        Stop::Memory
    }
}

impl<T: Drop> From<AllocFailed<T>> for Stop {
    ghost use Rattle.std.specs.Prelude.{◌≡◌};
    ghost use Rattle.pdw_reading.specs.declared.parse_error.Stop.TheVariants.{Memory};

    ghost from_gives = { λ _ e. e ≡ Memory };

    fn from(_error: AllocFailed<T>) -> Stop {
        Stop::Memory
    }
}
