// The outputs of a script: their texts, and writing them in turn.
ghost use Rattle.std.specs.Prelude.{◌≡◌, IfOk, IfErr, OnOk, map};
ghost use Rattle.row_codec.specs.Texts.{rows_text};
ghost use Rattle.scope_streams.specs.Ends.{WriteEnds, bags_of, named_texts, texts_of, with_files};

use crate::stops::WriteStop;
use logical_dag::Output;
use row_codec::write_rows;
use scope_outside::{Store, WriteAnswer};
use scope_value::Row;
use std::alloc::{AllocError, Global};

// The text of these rows.
fn text_of(alloc: Global, rows: &[Row], delimiter: u8) -> Result<Vec<u8>, AllocError>
    ensures { IfOk result (λ text. text.items ≡ rows_text delimiter rows.now) }
{
    let mut text = Vec::new(alloc);
    write_rows(alloc, rows, delimiter, &mut text)?;
    Ok(text)
}

/// The text of the rows of each output, with the output's byte between the fields, in the order of the outputs. An error is want of memory.
pub fn output_texts(
    alloc: Global,
    outputs: &[Output],
    rows: &[Vec<Row>],
) -> Result<Vec<Vec<u8>>, AllocError>
    ensures { IfOk result (λ texts. named_texts outputs.now texts.items ≡ texts_of (map (λ o. o.name) outputs.now) (map (λ o. o.delimiter) outputs.now) (bags_of rows.now)) }
{
    let mut texts = Vec::new(alloc);
    for (output, rows) in outputs.iter().zip(rows) {
        texts.push(text_of(alloc, rows.as_slice(), output.delimiter)?)?;
    }
    Ok(texts)
}

/// Writes each text under the name of its output, in turn.
///
/// Where a write fails, or finds no memory, the outputs before it stand whole, and no other name has changed.
pub fn write_texts<S: Store>(
    store: &mut S,
    outputs: &[Output],
    texts: &[Vec<u8>],
) -> Result<(), WriteStop>
    ensures ok { OnOk result (S.told store.new ≡ record (S.told store.old) { files = with_files (S.told store.old).files (named_texts outputs.now texts.now) }) }
    ensures err { IfErr result (WriteEnds (named_texts outputs.now texts.now) (S.told store.old) (S.told store.new)) }
{
    for (output, text) in outputs.iter().zip(texts) {
        // The name is copied before the write, so that want of memory for it leaves the store as it was.
        let Ok(kept_name) = output.name.copy() else {
            return Err(WriteStop::NoMemory);
        };
        match store.write(output.name.as_slice(), text.as_slice()) {
            WriteAnswer::Done => drop(kept_name),
            WriteAnswer::Failed => return Err(WriteStop::Failed(kept_name)),
            WriteAnswer::NoMemory => return Err(WriteStop::NoMemory),
        }
    }
    Ok(())
}
