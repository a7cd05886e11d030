// A row for each word of a text.
ghost use Rattle.std.specs.Prelude.{◌≡◌, ◌++◌, ◌∷◌, [], OnOk, OnErr};
ghost use Rattle.scope_value.specs.declared.value.Value.TheVariants.{Bytes};
ghost use Rattle.user_ops.specs.Appends.{AddsSome};
ghost use Rattle.scope_shipped.specs.Words.{words};
ghost use Rattle.scope_shipped.specs.SplitWords.{split_words, word_rows, begins_with_text, is_one_text};
ghost use Rattle.scope_shipped.specs.Lawful.{split_words-lawful};

use crate::same_types::is_same_type;
use scope_value::{Cell, ColType, Column, Row, Schema, Value};
use std::alloc::{AllocError, Global};
use user_ops::Processor;

/// A processor that gives a row for each word of the first column, a string: for each maximal run of bytes other than
/// space. For null it gives none. It takes no args.
#[derive(Clone, Copy)]
pub struct SplitWords;

fn has_text_first(columns: &[Column]) -> bool
    ensures { result ≡ begins_with_text columns.now }
{
    match columns.first() {
        None => false,
        Some(first) => is_same_type(first.kind, ColType::Text),
    }
}

fn has_one_text(columns: &[Column]) -> bool
    ensures { result ≡ is_one_text columns.now }
{
    match columns {
        [only] => is_same_type(only.kind, ColType::Text),
        _ => false,
    }
}

// Adds a row of one word.
fn push_word(alloc: Global, word: &[u8], out: &mut Vec<Row>) -> Result<(), AllocError>
    ensures ok { OnOk result (out.new.items ≡ out.old.items ++ (Bytes word.now ∷ []) ∷ []) }
    ensures err { OnErr result (out.new.items ≡ out.old.items) }
{
    let mut row = Row::new(alloc);
    row.push(Value::Bytes(Cell::from_slice(alloc, word)?))?;
    out.push(row)?;
    Ok(())
}

// Adds a row for each word.
fn push_words(alloc: Global, text: &[u8], out: &mut Vec<Row>) -> Result<(), AllocError>
    ensures ok { OnOk result (out.new.items ≡ out.old.items ++ word_rows (words text.now)) }
    ensures err { OnErr result (AddsSome out.old.items out.new.items (word_rows (words text.now))) }
{
    for part in text.split(|byte| *byte == b' ') {
        if !part.is_empty() {
            push_word(alloc, part, out)?;
        }
    }
    Ok(())
}

impl Processor for SplitWords {
    ghost told_processor = { λ _. split_words };

    ghost processor_law = { λ _. split_words-lawful };

    fn accepts(&self, input: &Schema, output: &Schema, args: &[Cell]) -> bool {
        args.is_empty() && (has_text_first(input.as_slice()) && has_one_text(output.as_slice()))
    }

    #[tactic(auto, using(crate::proofs::FitRules::fit_rules))]
    fn process(
        &self,
        alloc: Global,
        _args: &[Cell],
        row: &Row,
        out: &mut Vec<Row>,
    ) -> Result<(), AllocError> {
        match row.as_slice().first() {
            Some(Value::Bytes(text)) => push_words(alloc, text.as_slice(), out),
            _ => Ok(()),
        }
    }
}
