// A sizes file, record by record.
ghost use Rattle.std.specs.Prelude.{◌≡◌, ℕ, List, true, None, IfOk, IfSome, MatchResult};
ghost use Rattle.csv.specs.Records.{fields_of};
ghost use Rattle.row_codec.specs.Records.{IsBetween, left_of, records_of};
ghost use Rattle.size_model.specs.Declarations.{IsFirstFault, declaration_of};
ghost use Rattle.size_model.specs.Answers.{Adds, Reads, column_of, is_taken, stream_of};

use crate::declaration::declared;
use crate::fault::SizesFault;
use crate::sizes::Sizes;
use csv::{ByteRecord, Reader};
use row_codec::records::{open, read_line};
use std::alloc::{AllocError, Global};

/// The sizes that a file declares: records with commas between their fields, each `stream,NAME,ROWS,PARTS` or
/// `column,NAME,COLUMN,DISTINCT`. ROWS and DISTINCT go from 1 to 2^60 and PARTS from 1 to 64, in digits without a zero in
/// front. The first record that is of neither form, or declares what one before it does, is the fault. An error is want
/// of memory alone.
pub fn read_sizes(alloc: Global, bytes: &[u8]) -> Result<Result<Sizes, SizesFault>, AllocError>
    ensures { IfOk result (λ r. MatchResult r (λ sizes. Reads (records_of 44 bytes.now) sizes) (λ fault. IsFirstFault (records_of 44 bytes.now) fault.at)) }
{
    let mut text = Text {
        reader: open(alloc, bytes, b','),
        line: ByteRecord::new(alloc),
    };
    let mut sizes = Sizes::new(alloc);
    let end = declare_all(alloc, &mut text, &mut sizes);
    drop(text);
    match end? {
        Ok(()) => Ok(Ok(sizes)),
        Err(fault) => Ok(Err(fault)),
    }
}

// A text that is read record by record, and the latest record.
#[derive(Drop)]
struct Text<'a> {
    reader: Reader<&'a [u8]>,
    line: ByteRecord,
}

// Declares what the records that are left do, up to the first that is outside the form.
fn declare_all(
    alloc: Global,
    text: &mut Text<'_>,
    sizes: &mut Sizes,
) -> Result<Result<(), SizesFault>, AllocError>
    requires between { IsBetween text.old.reader }
    requires streams { (name : List ℕ) → stream_of sizes.old name ≡ None }
    requires columns { (name col : List ℕ) → column_of sizes.old name col ≡ None }
    ensures { IfOk result (λ r. MatchResult r (λ _. Reads (left_of text.old.reader) sizes.new) (λ fault. IsFirstFault (left_of text.old.reader) fault.at)) }
{
    for before in 0..u64::MAX {
        if !read_line(&mut text.reader, &mut text.line)? {
            return Ok(Ok(()));
        }
        if !declare(alloc, &text.line, sizes)? {
            return Ok(Err(SizesFault { at: before + 1 }));
        }
    }
    Err(AllocError)
}

// Adds what a record declares, if it declares anything that isn't declared yet, and says whether it did.
fn declare(alloc: Global, line: &ByteRecord, sizes: &mut Sizes) -> Result<bool, AllocError>
    ensures taken { IfOk result (λ taken. taken ≡ is_taken (declaration_of (fields_of line.now)) sizes.old) }
    ensures adds { IfOk result (λ taken. taken ≡ true → IfSome (declaration_of (fields_of line.now)) (λ d. Adds d sizes.old sizes.new)) }
{
    match declared(line) {
        Some(declaration) => sizes.declare(alloc, declaration),
        None => Ok(false),
    }
}
