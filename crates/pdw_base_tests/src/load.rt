//! Tests of files of rows.

use crate::values::bytes_of;
use pdw_base::{Kind, MOST_COLUMNS, Row, Str, Value};
use pdw_catalog::{Column, Placing, Table};
use pdw_load::{LoadError, read_table};
use sqlite_items::Items;
use std::alloc::Global;
use std::test::Fail;

// A table of an INT and a TEXT column, which both allow NULL or both not.
fn table(alloc: Global, nullable: bool) -> Result<Table, Fail> {
    let mut columns = Vec::new(alloc);
    for (name, kind) in [("id", Kind::Int), ("name", Kind::Text)] {
        columns.push(Column {
            name: Str::from_text(alloc, name)?,
            kind,
            nullable,
        })?;
    }
    Ok(Table {
        name: Str::from_text(alloc, "people")?,
        columns: Items::from_vec(columns),
        placing: Placing::Hash(0),
    })
}

fn shown_value(alloc: Global, value: &Value) -> Result<String, Fail> {
    match value {
        Value::Null => Ok(format!(in alloc; "NULL")?),
        Value::Int(number) => Ok(format!(in alloc; "{number}")?),
        Value::Text(text) => Ok(format!(in alloc; "'{}'", text.text())?),
        Value::Wide(number) => Ok(format!(in alloc; "wide {number}")?),
    }
}

// The rows, each value with a space after it and each row with a bar.
fn shown_rows(alloc: Global, rows: &[Row]) -> Result<String, Fail> {
    let mut text = String::new(alloc);
    for row in rows {
        for value in row.values() {
            text.push_str(shown_value(alloc, value)?.as_str())?;
            text.push_str(" ")?;
        }
        text.push_str("|")?;
    }
    Ok(text)
}

// The rows that a file gives, or the error.
fn shown(alloc: Global, file: &[u8], nullable: bool) -> Result<String, Fail> {
    let table = table(alloc, nullable)?;
    if table.columns.len() > MOST_COLUMNS {
        return Ok(format!(in alloc; "too many columns")?);
    }
    match read_table(alloc, file, &table) {
        Ok(rows) => shown_rows(alloc, rows.as_slice()),
        Err(error) => Ok(format!(in alloc; "{error:?}")?),
    }
}

// Whether the file before the arrow shows what stands behind it.
fn reads_so(alloc: Global, line: &str, nullable: bool) -> Result<bool, Fail> {
    let (case, wanted) = line.split_once(" => ").ok_or("an arrow")?;
    let file = bytes_of(alloc, case)?;
    let found = shown(alloc, file.as_slice(), nullable)?;
    Ok(found.as_bytes() == bytes_of(alloc, wanted)?.as_slice())
}

// Files, and their rows in a table whose columns allow NULL.
const ROWS: &str = "\
4,x~\\N,y~ => 4 'x' |NULL 'y' |
\u{FEFF}4,x~ => 4 'x' |
4,x^~5,y^~ => 4 'x' |5 'y' |
4,x~5,y => 4 'x' |5 'y' |
1,\"x,y\"^~2,\"\"^~3,\\N^~ => 1 'x,y' |2 '' |3 NULL |
1,\"a~b\"~\"2\",\"say \"\"hi\"\"\"~ => 1 'a~b' |2 'say \"hi\"' |
1,\"\\N\"~ => 1 NULL |
1,\\n~2,\\NN~3, \\N~ => 1 '\\n' |2 '\\NN' |3 ' \\N' |
~~1,x~^~~2,y~~ => 1 'x' |2 'y' |
1,~ => 1 '' |
+5,a~-0,b~-7,c~007,d~ => 5 'a' |0 'b' |-7 'c' |7 'd' |
9223372036854775807,a~-9223372036854775808,b~ => 9223372036854775807 'a' |-9223372036854775808 'b' |
1,h\u{E9}~ => 1 'h\u{E9}' |";

#[test]
fn records_are_rows(rt: HostRuntime) -> Result<(), Fail> {
    assert_eq!(rt; shown(rt.alloc(), b"", true)?.as_str(), "");
    for line in ROWS.lines() {
        assert!(rt; reads_so(rt.alloc(), line, true)?, "{line}");
    }
    Ok(())
}

// Files, and their first fault where the columns allow no NULL.
const FAULTS: &str = "\
1,x~2~ => FieldCount { rec: 2 }
1,x,y~ => FieldCount { rec: 1 }
x,\\N,3~ => FieldCount { rec: 1 }
1,x~~~z,y~ => BadInt { rec: 2, field: 1 }
,x~ => BadInt { rec: 1, field: 1 }
+,x~ => BadInt { rec: 1, field: 1 }
-,x~ => BadInt { rec: 1, field: 1 }
+-1,x~ => BadInt { rec: 1, field: 1 }
\u{20}1,x~ => BadInt { rec: 1, field: 1 }
1a,x~ => BadInt { rec: 1, field: 1 }
@,x~ => BadInt { rec: 1, field: 1 }
9223372036854775808,x~ => BadInt { rec: 1, field: 1 }
-9223372036854775809,x~ => BadInt { rec: 1, field: 1 }
1,x~\\N,y~ => NullField { rec: 2, field: 1 }
1,\"\\N\"~ => NullField { rec: 1, field: 2 }
1,x~2,@~ => NotUtf8 { rec: 2, field: 2 }
z,\\N~ => BadInt { rec: 1, field: 1 }
1,\\N~z,x~ => NullField { rec: 1, field: 2 }
1,x~z,x~3~ => BadInt { rec: 2, field: 1 }";

#[test]
fn the_first_fault_is_told(rt: HostRuntime) -> Result<(), Fail> {
    for line in FAULTS.lines() {
        assert!(rt; reads_so(rt.alloc(), line, false)?, "{line}");
    }
    Ok(())
}

// A file of two records, of which the second has a text of so many bytes, the last of them this one.
fn long_file(alloc: Global, count: usize, last: u8) -> Result<Vec<u8>, Fail> {
    let mut file = Vec::from_slice(alloc, b"1,x\n2,")?;
    for _ in 1..count {
        file.push(b'x')?;
    }
    file.push(last)?;
    Ok(file)
}

fn shown_long(alloc: Global, count: usize, last: u8) -> Result<String, Fail> {
    let file = long_file(alloc, count, last)?;
    shown(alloc, file.as_slice(), true)
}

#[test]
fn a_text_has_at_most_1000_bytes(rt: HostRuntime) -> Result<(), Fail> {
    let alloc = rt.alloc();
    let long = "LongText { rec: 2, field: 2 }";
    let utf8 = "NotUtf8 { rec: 2, field: 2 }";
    assert!(rt; shown_long(alloc, 1_000, b'x')?.starts_with("1 'x' |"));
    assert_eq!(rt; shown_long(alloc, 1_001, b'x')?.as_str(), long);
    assert_eq!(rt; shown_long(alloc, 1_001, 0xFF)?.as_str(), utf8);
    Ok(())
}

fn says(alloc: Global, error: LoadError, wanted: &str) -> Result<bool, Fail> {
    Ok(format!(in alloc; "{error}")?.as_str() == wanted)
}

#[test]
fn an_error_says_where(rt: HostRuntime) -> Result<(), Fail> {
    let alloc = rt.alloc();
    let (rec, field) = (2, 3);
    let count = "record 2 has not one field for each column";
    assert!(rt; says(alloc, LoadError::FieldCount { rec }, count)?);
    let number = "field 3 of record 2 is not a whole number of 64 bits";
    assert!(rt; says(alloc, LoadError::BadInt { rec, field }, number)?);
    let long = "field 3 of record 2 has more than 1000 bytes";
    assert!(rt; says(alloc, LoadError::LongText { rec, field }, long)?);
    let null = "field 3 of record 2 is NULL in a column that is NOT NULL";
    assert!(rt; says(alloc, LoadError::NullField { rec, field }, null)?);
    let utf8 = "field 3 of record 2 is not UTF-8";
    assert!(rt; says(alloc, LoadError::NotUtf8 { rec, field }, utf8)?);
    assert!(rt; says(alloc, LoadError::Memory, "out of memory")?);
    Ok(())
}
