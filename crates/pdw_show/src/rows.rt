//! The text of a SELECT.

ghost use Rattle.std.specs.List.{flat_map};
ghost use Rattle.std.specs.Prelude.{◌≡◌, ◌++◌, codes, OnOk};
ghost use Rattle.pdw_show.specs.Rows.{count_text, header_text, quoted, row_text, rows_text, value_text};

use itoa::Buffer;
use pdw_answer::Table1;
use pdw_base::{NoMemory, Row, Str, Value};

// Puts a text in double quotes, with each of its own doubled.
fn push_quoted(text: &mut Vec<u8>, bytes: &[u8]) -> Result<(), NoMemory>
    ensures { OnOk result (text.new.items ≡ text.old.items ++ quoted bytes.now) }
{
    text.push(b'"')?;
    for byte in bytes {
        if *byte == b'"' {
            text.push(b'"')?;
        }
        text.push(*byte)?;
    }
    text.push(b'"')?;
    Ok(())
}

fn push_value(text: &mut Vec<u8>, value: &Value) -> Result<(), NoMemory>
    ensures { OnOk result (text.new.items ≡ text.old.items ++ value_text value.now) }
{
    match value {
        Value::Null => text.extend_from_slice(b"NULL")?,
        Value::Int(number) => text.extend_from_slice(Buffer::new().format(*number).as_bytes())?,
        Value::Text(held) => push_quoted(text, held.bytes())?,
        Value::Wide(number) => text.extend_from_slice(Buffer::new().format(*number).as_bytes())?,
    }
    Ok(())
}

// Puts a comma before each value.
fn push_values(text: &mut Vec<u8>, values: &[Value]) -> Result<(), NoMemory>
    ensures { OnOk result (text.new.items ≡ text.old.items ++ flat_map (λ value. codes "," ++ value_text value) values.now) }
{
    for value in values {
        text.push(b',')?;
        push_value(text, value)?;
    }
    Ok(())
}

fn push_row(text: &mut Vec<u8>, row: &Row) -> Result<(), NoMemory>
    ensures { OnOk result (text.new.items ≡ text.old.items ++ row_text row.now) }
{
    if let Some((first, rest)) = row.values().split_first() {
        push_value(text, first)?;
        push_values(text, rest)?;
    }
    text.push(b'\n')?;
    Ok(())
}

/// Adds a line for each row.
pub fn push_rows(text: &mut Vec<u8>, rows: &[Row]) -> Result<(), NoMemory>
    ensures { OnOk result (text.new.items ≡ text.old.items ++ flat_map row_text rows.now) }
{
    for row in rows {
        push_row(text, row)?;
    }
    Ok(())
}

// Puts a comma before each name.
fn push_names(text: &mut Vec<u8>, names: &[Str]) -> Result<(), NoMemory>
    ensures { OnOk result (text.new.items ≡ text.old.items ++ flat_map (λ name. codes "," ++ name) names.now) }
{
    for name in names {
        text.push(b',')?;
        text.extend_from_slice(name.bytes())?;
    }
    Ok(())
}

// Adds the line of the output names.
fn push_header(text: &mut Vec<u8>, names: &[Str]) -> Result<(), NoMemory>
    ensures { OnOk result (text.new.items ≡ text.old.items ++ header_text names.now) }
{
    if let Some((first, rest)) = names.split_first() {
        text.extend_from_slice(first.bytes())?;
        push_names(text, rest)?;
    }
    text.push(b'\n')?;
    Ok(())
}

// Adds the line of the number of rows.
fn push_count(text: &mut Vec<u8>, rows: usize) -> Result<(), NoMemory>
    ensures { OnOk result (text.new.items ≡ text.old.items ++ count_text rows) }
{
    text.extend_from_slice(b"ROWS ")?;
    text.extend_from_slice(Buffer::new().format(rows).as_bytes())?;
    text.push(b'\n')?;
    Ok(())
}

/// Adds the output names, a line for each row, and the number of rows.
pub fn push_table(text: &mut Vec<u8>, table: &Table1) -> Result<(), NoMemory>
    ensures { OnOk result (text.new.items ≡ text.old.items ++ rows_text table.now.names table.now.rows) }
{
    push_header(text, table.names.as_slice())?;
    push_rows(text, table.rows.as_slice())?;
    push_count(text, table.rows.len())
}
