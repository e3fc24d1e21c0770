ghost use Rattle.std.specs.Prelude.{◌≡◌, IfOk};
ghost use Rattle.pdw_base.specs.Value.{owned};

use crate::{NoMemory, Str};
use std::alloc::Global;

/// The kind of a column or of a value that is not NULL.
#[derive(Clone, Copy, Debug, PartialEq, Eq)]
pub enum Kind {
    /// A whole number of 64 bits.
    Int,
    /// A text in UTF-8.
    Text,
    /// A whole number of 128 bits, between a partial and a final aggregate alone.
    Wide,
}

/// A value of a row.
#[derive(Debug, Drop)]
pub enum Value {
    Null,
    Int(i64),
    Text(Str),
    Wide(i128),
}

/// A value that borrows its text.
#[derive(Clone, Copy, Debug)]
pub enum ValueRef<'a> {
    Null,
    Int(i64),
    Text(&'a Str),
    Wide(i128),
}

impl Value {
    /// The same value, with its text borrowed.
    pub fn as_ref(&self) -> ValueRef<'_>
        ensures { owned result ≡ self.now }
    {
        match self {
            Value::Null => ValueRef::Null,
            Value::Int(number) => ValueRef::Int(*number),
            Value::Text(text) => ValueRef::Text(text),
            Value::Wide(number) => ValueRef::Wide(*number),
        }
    }

    /// An equal value.
    pub fn try_copy(&self, alloc: Global) -> Result<Value, NoMemory>
        ensures { IfOk result (λ copy. copy ≡ self.now) }
    {
        match self {
            Value::Null => Ok(Value::Null),
            Value::Int(number) => Ok(Value::Int(*number)),
            Value::Text(text) => Ok(Value::Text(text.try_copy(alloc)?)),
            Value::Wide(number) => Ok(Value::Wide(*number)),
        }
    }
}

impl ValueRef<'_> {
    /// The same value, with a text of its own.
    pub fn to_value(self, alloc: Global) -> Result<Value, NoMemory>
        ensures { IfOk result (λ copy. copy ≡ owned self.entry) }
    {
        match self {
            ValueRef::Null => Ok(Value::Null),
            ValueRef::Int(number) => Ok(Value::Int(number)),
            ValueRef::Text(text) => Ok(Value::Text(text.try_copy(alloc)?)),
            ValueRef::Wide(number) => Ok(Value::Wide(number)),
        }
    }
}
