//! The records of a text, one after the other: all that is asked of the reader of `csv`.
ghost use Rattle.std.specs.Prelude.{◌≡◌, [], ◌∷◌, IfOk, false, true};
ghost use Rattle.csv.specs.Records.{fields_of};
ghost use Rattle.row_codec.specs.Records.{IsBetween, left_of, records_of};

use csv::{ByteRecord, Reader, ReaderBuilder};
use std::alloc::{AllocError, Global};

/// A reader of a text that has no header row, and whose records may have any counts of fields.
pub fn open(alloc: Global, bytes: &[u8], delimiter: u8) -> Reader<&[u8]>
    ensures between { IsBetween result }
    ensures left { left_of result ≡ records_of delimiter bytes.entry.now }
{
    ReaderBuilder::new()
        .delimiter(delimiter)
        .has_headers(false)
        .flexible(true)
        .from_reader(alloc, bytes)
}

/// Reads the next record, if there is one. A reader of a text fails only for want of memory.
pub fn read_line(reader: &mut Reader<&[u8]>, line: &mut ByteRecord) -> Result<bool, AllocError>
    requires { IsBetween reader.old }
    ensures between { IfOk result (λ found. found ≡ true → IsBetween reader.new) }
    ensures more { IfOk result (λ found. found ≡ true → left_of reader.old ≡ fields_of line.new ∷ left_of reader.new) }
    ensures done { IfOk result (λ found. found ≡ false → left_of reader.old ≡ []) }
{
    let Ok(found) = reader.read_byte_record(line) else {
        return Err(AllocError);
    };
    Ok(found)
}
