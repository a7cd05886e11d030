// The rows of a part.
ghost use Rattle.std.specs.Prelude.{◌≡◌, [], ◌∷◌, true, false, IfOk, IfSome, OnOk};
ghost use Rattle.std.specs.List.{All};
ghost use Rattle.csv.specs.Records.{fields_of};
ghost use Rattle.scope_value.specs.Fits.{RowFits};
ghost use Rattle.row_codec.specs.Records.{IsBetween, left_of, records_of};
ghost use Rattle.row_codec.specs.Rows.{Answers, rows_from};

use crate::fault::RowFault;
use crate::records::{open, read_line};
use csv::{ByteRecord, Reader};
use scope_value::{Cell, Row, Schema};
use std::alloc::{AllocError, Global};
use user_ops::Extractor;

/// The rows that an extractor, with these args, reads from a part for the output columns: one for each record, whose fields stand between
/// the extractor's delimiters, in order. Where it takes the columns and args, each row fits the columns. The first record that it refuses is
/// the fault. An error is want of memory alone.
pub fn read_part(
    alloc: Global,
    bytes: &[u8],
    op: &dyn Extractor,
    args: &[Cell],
    output: &Schema,
) -> Result<Result<Vec<Row>, RowFault>, AllocError>
    ensures exact { IfOk result (λ r. Answers (λ v. v.items) (λ f. f.at) r
        (rows_from ((told_extractor op.now).extracts args.now output.now) 1
        (records_of ((told_extractor op.now).delimits args.now) bytes.now))) }
    ensures fits { (told_extractor op.now).takes output.now args.now ≡ true
        → IfOk result (λ r. IfOk r (λ v. All (RowFits output.now) v.items)) }
{
    let mut part = Part {
        reader: open(alloc, bytes, op.delimiter(args)),
        line: ByteRecord::new(alloc),
        fields: Vec::new(alloc),
    };
    let mut rows = Vec::new(alloc);
    let end = push_rows(alloc, &mut part, op, args, output, &mut rows);
    drop(part);
    match end? {
        Ok(()) => Ok(Ok(rows)),
        Err(fault) => Ok(Err(fault)),
    }
}

// A part that is read record by record, and the fields of the latest.
#[derive(Drop)]
struct Part<'a> {
    reader: Reader<&'a [u8]>,
    line: ByteRecord,
    fields: Vec<Cell>,
}

// Reads the rows that are left in a part, or up to the first record that is refused.
fn push_rows(
    alloc: Global,
    part: &mut Part<'_>,
    op: &dyn Extractor,
    args: &[Cell],
    output: &Schema,
    rows: &mut Vec<Row>,
) -> Result<Result<(), RowFault>, AllocError>
    requires between { IsBetween part.old.reader }
    requires first { rows.old.items ≡ [] }
    ensures exact { IfOk result (λ r. Answers (λ _. rows.new.items) (λ f. f.at) r
        (rows_from ((told_extractor op.now).extracts args.now output.now) 1 (left_of part.old.reader))) }
    ensures fits { (told_extractor op.now).takes output.now args.now ≡ true → All (RowFits output.now) rows.new.items }
{
    for before in 0..u64::MAX {
        if !next_record(alloc, part)? {
            return Ok(Ok(()));
        }
        match row(alloc, op, args, output, part.fields.as_slice())? {
            Some(row) => rows.push(row)?,
            None => return Ok(Err(RowFault { at: before + 1 })),
        }
    }
    Err(AllocError)
}

// Reads the fields of the next record, if there is one.
fn next_record(alloc: Global, part: &mut Part<'_>) -> Result<bool, AllocError>
    requires { IsBetween part.old.reader }
    ensures between { IfOk result (λ found. found ≡ true → IsBetween part.new.reader) }
    ensures more { IfOk result (λ found. found ≡ true → left_of part.old.reader ≡ part.new.fields.items ∷ left_of part.new.reader) }
    ensures done { IfOk result (λ found. found ≡ false → left_of part.old.reader ≡ []) }
{
    if !read_line(&mut part.reader, &mut part.line)? {
        return Ok(false);
    }
    refill(alloc, &part.line, &mut part.fields)?;
    Ok(true)
}

// Puts the fields of a record in the place of what was there, each copied once.
fn refill(alloc: Global, line: &ByteRecord, fields: &mut Vec<Cell>) -> Result<(), AllocError>
    ensures { OnOk result (fields.new.items ≡ fields_of line.now) }
{
    fields.clear();
    for at in 0..line.len() {
        let Some(field) = line.get(at) else {
            unreachable!();
        };
        fields.push(Cell::from_slice(alloc, field)?)?;
    }
    Ok(())
}

// The row that the extractor reads from the fields, or nothing where it refuses them.
fn row(
    alloc: Global,
    op: &dyn Extractor,
    args: &[Cell],
    output: &Schema,
    fields: &[Cell],
) -> Result<Option<Row>, AllocError>
    ensures is { IfOk result (λ o. o ≡ (told_extractor op.now).extracts args.now output.now fields.now) }
    ensures fits { (told_extractor op.now).takes output.now args.now ≡ true
        → IfOk result (λ o. IfSome o (λ r. RowFits output.now r)) }
{
    let mut values = Vec::with_capacity(alloc, output.len())?;
    if op.extract(alloc, args, output, fields, &mut values)? {
        Ok(Some(Row::from_vec(values)))
    } else {
        Ok(None)
    }
}
