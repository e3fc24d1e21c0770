use pdw_base::{MOST_TEXT_BYTES, NoMemory};
use std::alloc::{AllocError, AllocFailed};
use thiserror::Error;

/// Why the records of a file are not rows of a table. Records and fields are counted from 1.
#[derive(Clone, Copy, Debug, PartialEq, Eq, Error)]
pub enum LoadError {
    /// The record has not one field for each column.
    #[error("record {rec} has not one field for each column")]
    FieldCount { rec: u64 },
    /// The field of an INT column is no whole number of 64 bits.
    #[error("field {field} of record {rec} is not a whole number of 64 bits")]
    BadInt { rec: u64, field: u32 },
    /// The text is longer than a table allows.
    #[error("field {field} of record {rec} has more than {most} bytes", most = MOST_TEXT_BYTES)]
    LongText { rec: u64, field: u32 },
    /// The field is NULL in a column that allows none.
    #[error("field {field} of record {rec} is NULL in a column that is NOT NULL")]
    NullField { rec: u64, field: u32 },
    /// The bytes of a text are not UTF-8.
    #[error("field {field} of record {rec} is not UTF-8")]
    NotUtf8 { rec: u64, field: u32 },
    /// There was not the memory for the rows.
    #[error("out of memory")]
    Memory,
}

impl From<NoMemory> for LoadError {
    ghost use Rattle.std.specs.Prelude.{◌≡◌};
    ghost use Rattle.pdw_load.specs.declared.load_error.LoadError.TheVariants.{Memory};

    ghost from_gives = { λ _ e. e ≡ Memory };

    fn from(_error: NoMemory) -> LoadError {
        LoadError::Memory
    }
}

impl From<AllocError> for LoadError {
    ghost use Rattle.std.specs.Prelude.{◌≡◌};
    ghost use Rattle.pdw_load.specs.declared.load_error.LoadError.TheVariants.{Memory};

    ghost from_gives = { λ _ e. e ≡ Memory };

    fn from(_error: AllocError) -> LoadError {
        LoadError::Memory
    }
}

impl<T: Drop> From<AllocFailed<T>> for LoadError {
    ghost use Rattle.std.specs.Prelude.{◌≡◌};
    ghost use Rattle.pdw_load.specs.declared.load_error.LoadError.TheVariants.{Memory};

    ghost from_gives = { λ _ e. e ≡ Memory };

    fn from(_error: AllocFailed<T>) -> LoadError {
        LoadError::Memory
    }
}
