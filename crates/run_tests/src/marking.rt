// An extractor of the tests, which isn't shipped.
ghost use Rattle.std.specs.Prelude.{◌≡◌};
ghost use Rattle.run_tests.specs.Marking.{marking, is_one_text as spec_is_one_text};
ghost use Rattle.run_tests.specs.MarkingFits.{marking-lawful};

use scope_value::{Cell, ColType, Column, Schema, Value};
use std::alloc::{AllocError, Global};
use user_ops::Extractor;

/// Gives the string `seen` for each record.
#[derive(Clone, Copy)]
pub struct Marking;

fn is_one_text(columns: &[Column]) -> bool
    ensures { result ≡ spec_is_one_text columns.now }
{
    match columns {
        [column] => matches!(column.kind, ColType::Text),
        _ => false,
    }
}

impl Extractor for Marking {
    ghost told_extractor = { λ _. marking };

    ghost extractor_law = { λ _. marking-lawful };

    fn fixed(&self, _alloc: Global, _out: &mut Vec<Column>) -> Result<bool, AllocError> {
        Ok(false)
    }

    fn accepts(&self, output: &Schema, _args: &[Cell]) -> bool {
        is_one_text(output.as_slice())
    }

    fn delimiter(&self, _args: &[Cell]) -> u8 {
        b','
    }

    #[tactic(auto, using(crate::specs::MarkingFits::marking_fits))]
    fn extract(
        &self,
        alloc: Global,
        _args: &[Cell],
        _output: &Schema,
        _fields: &[Cell],
        out: &mut Vec<Value>,
    ) -> Result<bool, AllocError> {
        out.push(Value::Bytes(Cell::from_slice(alloc, b"seen")?))?;
        Ok(true)
    }
}
