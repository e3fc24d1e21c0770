ghost use Rattle.std.specs.Prelude.{◌≡◌, [], ◌≤◌, length, true, IfOk, IfErr};
ghost use Rattle.std.specs.List.{AllByRecursion};
ghost use Rattle.csv.specs.Reading.{ReadRecord, Ready, is_flexible, reader_trim, took_first};
ghost use Rattle.csv.specs.Records.{fields_of};
ghost use Rattle.csv.specs.declared.reader.Trim.TheVariants as trim;
ghost use Rattle.pdw_catalog.specs.Table.{FitsTable};
ghost use Rattle.pdw_load.specs.LoadError.{IsFirstFault};
ghost use Rattle.pdw_load.specs.Records.{faults_of, record_faults, records_of, row_of, rows_of};

use crate::LoadError;
use crate::field::{Place, read_field};
use csv::{ByteRecord, ErrorKind, Reader, ReaderBuilder};
use pdw_base::{MOST_COLUMNS, Row};
use pdw_catalog::{Column, Table};
use std::alloc::Global;

// Reads the next record, of any number of fields. False says that there is none.
fn read_next(reader: &mut Reader<&[u8]>, fields: &mut ByteRecord) -> Result<bool, LoadError>
    requires ready { Ready reader.old }
    requires plain { reader_trim reader.old ≡ trim.None }
    requires flexible { is_flexible reader.old ≡ true }
    ensures read { IfOk result (λ found. ReadRecord (λ s. Some s.now) reader.old reader.new found (fields_of fields.new)) }
    ensures ready { IfOk result (λ found. took_first reader.new ≡ true) }
    ensures flexible { IfOk result (λ found. is_flexible reader.new ≡ true) }
    ensures fault { IfErr result (λ e. e ≡ LoadError.Memory) }
{
    let error = match reader.read_byte_record(fields) {
        Ok(found) => return Ok(found),
        Err(error) => error,
    };
    match error.kind() {
        // Bytes in memory are read without failure, of which the contract of a reader says nothing.
        ErrorKind::Io(_) | ErrorKind::OutOfMemory => Err(LoadError::Memory),
        ErrorKind::UnequalLengths { .. }
        | ErrorKind::Utf8 { .. }
        | ErrorKind::Serialize(_)
        | ErrorKind::Deserialize { .. } => unreachable!(),
    }
}

// The row of the record of this number, or its first fault.
fn read_record(
    alloc: Global,
    columns: &[Column],
    fields: &ByteRecord,
    rec: u64,
) -> Result<Row, LoadError>
    requires { length columns.now ≤ MOST_COLUMNS }
    ensures row { IfOk result (λ row. (record_faults columns.now rec (fields_of fields.now) ≡ []) × (row ≡ row_of columns.now (fields_of fields.now))) }
    ensures fault { IfErr result (λ e. IsFirstFault e (record_faults columns.now rec (fields_of fields.now))) }
{
    if fields.len() != columns.len() {
        return Err(LoadError::FieldCount { rec });
    }
    let mut values = Vec::with_capacity(alloc, columns.len())?;
    for at in 0..columns.len() {
        // A field is there for each column: the counts are the same.
        let Some(bytes) = fields.get(at) else {
            return Err(LoadError::FieldCount { rec });
        };
        let field = at as u32 + 1;
        values.push(read_field(alloc, &columns[at], bytes, Place { rec, field })?)?;
    }
    Ok(Row::from_values(values))
}

/// The rows of all records of a CSV file, or the first fault.
///
/// Fields stand between commas, in double quotes or not. There is no header. Empty lines and a byte order mark at
/// the start are no part of the records.
pub fn read_table(alloc: Global, bytes: &[u8], t: &Table) -> Result<Vec<Row>, LoadError>
    requires { length t.now.columns ≤ MOST_COLUMNS }
    ensures faultless { IfOk result (λ rows. faults_of t.now (records_of bytes.now) ≡ []) }
    ensures rows { IfOk result (λ rows. rows.items ≡ rows_of t.now (records_of bytes.now)) }
    ensures fault { IfErr result (λ e. IsFirstFault e (faults_of t.now (records_of bytes.now))) }
    ensures fits { IfOk result (λ rows. AllByRecursion (FitsTable t.now.columns) rows.items) }
{
    let mut reader = ReaderBuilder::new()
        .has_headers(false)
        .flexible(true)
        .from_reader(alloc, bytes);
    let mut fields = ByteRecord::new(alloc);
    let mut rows = Vec::new(alloc);
    while read_next(&mut reader, &mut fields)? {
        let number = rows.len() as u64 + 1;
        rows.push(read_record(alloc, t.columns.as_slice(), &fields, number)?)?;
    }
    Ok(rows)
}
