//! What the tests write for values and bytes.

use pdw_base::{Str, Value};
use std::alloc::Global;
use std::test::Fail;

/// A value as a table of cases has it: a text behind a quote, `NULL`, a wide number behind `wide `, or a number.
pub(crate) fn value(alloc: Global, case: &str) -> Result<Value, Fail> {
    if let Some(text) = case.strip_prefix('\'') {
        return Ok(Value::Text(Str::from_text(alloc, text)?));
    }
    if case == "NULL" {
        return Ok(Value::Null);
    }
    if let Some(number) = case.strip_prefix("wide ") {
        return Ok(Value::Wide(number.parse::<i128>()?));
    }
    Ok(Value::Int(case.parse::<i64>()?))
}

/// The bytes that a case stands for: `~` is a line feed, `^` a carriage return and `@` the byte 255.
pub(crate) fn bytes_of(alloc: Global, case: &str) -> Result<Vec<u8>, Fail> {
    let mut bytes = Vec::new(alloc);
    for byte in case.bytes() {
        bytes.push(match byte {
            b'~' => b'\n',
            b'^' => b'\r',
            b'@' => 0xFF,
            other => other,
        })?;
    }
    Ok(bytes)
}
