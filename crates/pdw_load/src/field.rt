ghost use Rattle.std.specs.Prelude.{◌≡◌, [], IfOk, IfErr};
ghost use Rattle.pdw_load.specs.Field.{field_faults, number_of, text_faults, value_of};
ghost use Rattle.pdw_load.specs.LoadError.{IsFirstFault};

use crate::LoadError;
use pdw_base::{Kind, MOST_TEXT_BYTES, Str, Value};
use pdw_catalog::Column;
use std::alloc::Global;
use std::str;

/// Where a field stands in a file: its record, and its place in the record, both counted from 1.
#[derive(Clone, Copy)]
pub(crate) struct Place {
    pub(crate) rec: u64,
    pub(crate) field: u32,
}

/// The field that stands for NULL.
const NULL_MARK: &[u8] = b"\\N";

// The number that a field says, or None where it says none of 64 bits.
fn number(bytes: &[u8]) -> Option<i64>
    ensures { result ≡ number_of bytes.now }
{
    match str::from_utf8(bytes) {
        Ok(text) => text.parse::<i64>().ok(),
        Err(_) => None,
    }
}

// The text that a field is, or its fault.
fn text(alloc: Global, bytes: &[u8], at: Place) -> Result<Str, LoadError>
    ensures value { IfOk result (λ text. (text_faults at bytes.now ≡ []) × (text ≡ bytes.now)) }
    ensures fault { IfErr result (λ e. IsFirstFault e (text_faults at bytes.now)) }
{
    let Place { rec, field } = at;
    match Str::from_bytes(alloc, bytes)? {
        None => Err(LoadError::NotUtf8 { rec, field }),
        Some(_) if bytes.len() > MOST_TEXT_BYTES => Err(LoadError::LongText { rec, field }),
        Some(text) => Ok(text),
    }
}

/// The value of a field in a column, or the field's fault.
pub(crate) fn read_field(
    alloc: Global,
    column: &Column,
    bytes: &[u8],
    at: Place,
) -> Result<Value, LoadError>
    ensures value { IfOk result (λ value. (field_faults at column.now bytes.now ≡ []) × (value ≡ value_of column.now.kind bytes.now)) }
    ensures fault { IfErr result (λ e. IsFirstFault e (field_faults at column.now bytes.now)) }
{
    let Place { rec, field } = at;
    if bytes == NULL_MARK {
        return if column.nullable {
            Ok(Value::Null)
        } else {
            Err(LoadError::NullField { rec, field })
        };
    }
    match column.kind {
        Kind::Int => match number(bytes) {
            Some(number) => Ok(Value::Int(number)),
            None => Err(LoadError::BadInt { rec, field }),
        },
        Kind::Text => Ok(Value::Text(text(alloc, bytes, at)?)),
        Kind::Wide => Err(LoadError::BadInt { rec, field }),
    }
}
