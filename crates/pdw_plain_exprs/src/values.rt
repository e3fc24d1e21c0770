//! Values that own their texts.

ghost use Rattle.std.specs.Prelude.{◌≡◌, IfOk};
ghost use Rattle.pdw_base.specs.Value.{owned};
ghost use Rattle.pdw_expr.specs.Arithmetic.{computed};
ghost use Rattle.pdw_semantics.specs.Exprs as spec;

use pdw_base::{NoMemory, Value, ValueRef};
use pdw_expr::{Arith, compute, negate};
use std::alloc::Global;

/// The value with a text of its own.
pub fn to_owned_value(alloc: Global, value: ValueRef<'_>) -> Result<Value, NoMemory>
    ensures { IfOk result (λ copy. copy ≡ owned value.entry) }
{
    match value {
        ValueRef::Null => Ok(Value::Null),
        ValueRef::Int(number) => Ok(Value::Int(number)),
        ValueRef::Text(text) => Ok(Value::Text(text.try_copy(alloc)?)),
        ValueRef::Wide(number) => Ok(Value::Wide(number)),
    }
}

/// One operator between two values.
pub fn computed_value(
    alloc: Global,
    op: Arith,
    left: &Value,
    right: &Value,
) -> Result<Value, NoMemory>
    ensures { IfOk result (λ value. value ≡ computed op left.now right.now) }
{
    to_owned_value(alloc, compute(op, left.as_ref(), right.as_ref()))
}

/// The value, with its sign changed where that is asked.
pub fn signed(alloc: Global, minus: bool, value: Value) -> Result<Value, NoMemory>
    ensures { IfOk result (λ changed. changed ≡ spec.signed minus value) }
{
    if minus {
        to_owned_value(alloc, negate(value.as_ref()))
    } else {
        Ok(value)
    }
}
