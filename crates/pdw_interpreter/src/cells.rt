//! Values of rows.

ghost use Rattle.std.specs.Prelude.{◌≡◌, IfOk};
ghost use Rattle.std.specs.Option.{option_copied};
ghost use Rattle.pdw_base.specs.Schema.{cell};
ghost use Rattle.pdw_base.specs.Value.{owned};
ghost use Rattle.pdw_interpreter.specs.Relation as spec;
ghost use Rattle.pdw_expr.specs.Env as env;
ghost use Rattle.pdw_expr.specs.Scalar.{value_of};

use pdw_base::{ColId, NoMemory, Row, Schema, Value, ValueRef};
use pdw_expr::{Scalar, eval_scalar};
use std::alloc::Global;

// The value with a text of its own.
fn to_owned_value(alloc: Global, value: ValueRef<'_>) -> Result<Value, NoMemory>
    ensures { IfOk result (λ copy. copy ≡ owned value.entry) }
{
    match value {
        ValueRef::Null => Ok(Value::Null),
        ValueRef::Int(number) => Ok(Value::Int(number)),
        ValueRef::Text(text) => Ok(Value::Text(text.try_copy(alloc)?)),
        ValueRef::Wide(number) => Ok(Value::Wide(number)),
    }
}

/// The value of an expression over a row.
pub fn computed(alloc: Global, e: &Scalar, columns: &Schema, row: &Row) -> Result<Value, NoMemory>
    ensures { IfOk result (λ value. value ≡ value_of e.now (cell columns.now row.now)) }
{
    to_owned_value(alloc, eval_scalar(e, columns, row))
}

/// The value of a column, NULL where the row has none.
pub fn column(alloc: Global, c: ColId, columns: &Schema, row: &Row) -> Result<Value, NoMemory>
    ensures { IfOk result (λ value. value ≡ cell columns.now row.now c) }
{
    computed(alloc, &Scalar::Col(c), columns, row)
}

/// The value, or NULL where there is none.
pub fn value_or_null(alloc: Global, value: Option<&Value>) -> Result<Value, NoMemory>
    ensures { IfOk result (λ copy. copy ≡ spec.value_or_null (option_copied value.entry)) }
{
    match value {
        Some(value) => value.try_copy(alloc),
        None => Ok(Value::Null),
    }
}

/// The first value, or the second where it is NULL.
pub fn or_else(first: Value, second: Value) -> Value
    ensures { result ≡ env.or_else first second }
{
    match first {
        Value::Null => second,
        Value::Int(number) => Value::Int(number),
        Value::Text(text) => Value::Text(text),
        Value::Wide(number) => Value::Wide(number),
    }
}
