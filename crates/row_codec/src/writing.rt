// Rows as text.
ghost use Rattle.std.specs.Prelude.{◌≡◌, ◌++◌, ℕ, List, Some, IfOk, OnOk, OnErr, map};
ghost use Rattle.csv.specs.Records.{fields_of};
ghost use Rattle.row_codec.specs.Fields.{field_text};
ghost use Rattle.row_codec.specs.Texts.{HasWritten, line_text, rows_text};

use crate::field::text_of;
use csv::{ByteRecord, Writer, WriterBuilder};
use itoa::Buffer;
use scope_value::{Row, Value};
use std::alloc::{AllocError, Global};

/// Appends the text of the rows, each ended by LF: the fields of its values, with the delimiter between them and quotes around a field that
/// holds the delimiter, a quote, CR or LF. An error is want of memory, and appends nothing.
pub fn write_rows(
    alloc: Global,
    rows: &[Row],
    delimiter: u8,
    out: &mut Vec<u8>,
) -> Result<(), AllocError>
    ensures ok { OnOk result (out.new.items ≡ out.old.items ++ rows_text delimiter rows.now) }
    ensures err { OnErr result (out.new.items ≡ out.old.items) }
{
    let text = written(alloc, rows, delimiter)?;
    out.extend_from_slice(text.as_slice())
}

fn written(alloc: Global, rows: &[Row], delimiter: u8) -> Result<Vec<u8>, AllocError>
    ensures { IfOk result (λ text. text.items ≡ rows_text delimiter rows.now) }
{
    let mut writer = WriterBuilder::new()
        .delimiter(delimiter)
        .flexible(true)
        .from_writer(Vec::new(alloc));
    let mut line = ByteRecord::new(alloc);
    for row in rows {
        write_row(&mut writer, &mut line, row.as_slice())?;
    }
    drop(line);
    match writer.into_inner() {
        Ok(text) => Ok(text),
        Err(_) => Err(AllocError),
    }
}

// Writes the record of these values.
fn write_row(
    writer: &mut Writer<Vec<u8>>,
    line: &mut ByteRecord,
    values: &[Value],
) -> Result<(), AllocError>
    ensures { OnOk result ((delimiter : ℕ) (text : List ℕ) → HasWritten (λ v. Some v.items) delimiter text writer.old
        → HasWritten (λ v. Some v.items) delimiter (text ++ line_text delimiter values.now) writer.new) }
{
    fill(line, values)?;
    match writer.write_byte_record(line) {
        Ok(()) => Ok(()),
        Err(_) => Err(AllocError),
    }
}

// Makes the record of these values.
fn fill(line: &mut ByteRecord, values: &[Value]) -> Result<(), AllocError>
    ensures { OnOk result (fields_of line.new ≡ map field_text values.now) }
{
    line.clear();
    for value in values {
        let mut buffer = Buffer::new();
        line.push_field(text_of(value, &mut buffer))?;
    }
    Ok(())
}
