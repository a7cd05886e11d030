// Rows out of records that have a field for each column.
ghost use Rattle.std.specs.Prelude.{◌≡◌, ◌++◌, ◌∷◌, [], Some, None, IfOk, length, take, option_map, if◌then◌else◌};
ghost use Rattle.row_codec.specs.Rows.{text_extracts};
ghost use Rattle.scope_shipped.specs.TextExtractor.{text_extractor, delimiter_of, is_delimiter};
ghost use Rattle.scope_shipped.specs.Lawful.{text_extractor-lawful};

use crate::refusals::keep_if_taken;
use row_codec::read_field;
use scope_value::{Cell, Column, Schema, Value};
use std::alloc::{AllocError, Global};
use user_ops::Extractor;

/// An extractor for any output: a record has exactly one field for each column, in order. The delimiter is a comma, or
/// the one ASCII byte of its one arg, which may not be a quote, CR or LF.
#[derive(Clone, Copy)]
pub struct TextExtractor;

// Whether the byte may stand between fields.
fn may_delimit(byte: u8) -> bool
    ensures { result ≡ is_delimiter byte }
{
    byte < 128 && (byte != b'"' && (byte != b'\r' && byte != b'\n'))
}

// The delimiter that the args name.
fn named_delimiter(args: &[Cell]) -> Option<u8>
    ensures { result ≡ delimiter_of args.now }
{
    match args {
        [] => Some(b','),
        [arg] => single_delimiter(arg.as_slice()),
        _ => None,
    }
}

// The delimiter that one arg names.
fn single_delimiter(arg: &[u8]) -> Option<u8>
    ensures { result ≡ delimiter_of (arg.now ∷ []) }
{
    match arg {
        [byte] if may_delimit(*byte) => Some(*byte),
        _ => None,
    }
}

// Adds the values of the fields, and answers whether each could be read. What it added before it stopped stays.
fn push_fields(
    alloc: Global,
    columns: &[Column],
    fields: &[Cell],
    out: &mut Vec<Value>,
) -> Result<bool, AllocError>
    ensures read { IfOk result (λ taken.
        (if taken then Some out.new.items else None)
        ≡ option_map (λ row. out.old.items ++ row) (text_extracts columns.now fields.now)) }
    ensures kept { take (length out.old.items) out.new.items ≡ out.old.items }
{
    if fields.len() != columns.len() {
        return Ok(false);
    }
    for (at, column) in columns.iter().enumerate() {
        match read_field(alloc, column.kind, fields[at].as_slice())? {
            Some(value) => out.push(value)?,
            None => return Ok(false),
        }
    }
    Ok(true)
}

impl Extractor for TextExtractor {
    ghost told_extractor = { λ _. text_extractor };

    ghost extractor_law = { λ _. text_extractor-lawful };

    fn fixed(&self, _alloc: Global, _out: &mut Vec<Column>) -> Result<bool, AllocError> {
        Ok(false)
    }

    fn accepts(&self, _output: &Schema, args: &[Cell]) -> bool {
        named_delimiter(args).is_some()
    }

    fn delimiter(&self, args: &[Cell]) -> u8 {
        named_delimiter(args).unwrap_or(b',')
    }

    #[tactic(auto, using(crate::proofs::FitRules::fit_rules))]
    fn extract(
        &self,
        alloc: Global,
        _args: &[Cell],
        output: &Schema,
        fields: &[Cell],
        out: &mut Vec<Value>,
    ) -> Result<bool, AllocError> {
        let held = out.len();
        let taken = push_fields(alloc, output.as_slice(), fields, out);
        keep_if_taken(taken, held, out)
    }
}
