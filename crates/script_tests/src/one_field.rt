// An extractor for the tests: the smallest one that reads a field by its column's type.
ghost use Rattle.std.specs.Prelude.{◌≡◌, IfOk};
ghost use Rattle.script_tests.specs.OneFieldFits.{one_field-lawful};
ghost use Rattle.script_tests.specs.OneField.{one_field, one_value, only_value};

use row_codec::read_field;
use scope_value::{Cell, ColType, Column, Schema, Value};
use std::alloc::{AllocError, Global};
use user_ops::Extractor;

/// Reads records of one field in an output of one column, and refuses all others.
#[derive(Clone, Copy)]
pub struct OneField {
    pub delimiter: u8,
}

// The value of the only field.
fn only_of(alloc: Global, kind: ColType, fields: &[Cell]) -> Result<Option<Value>, AllocError>
    ensures { IfOk result (λ o. o ≡ only_value kind fields.now) }
{
    match fields {
        [field] => read_field(alloc, kind, field.as_slice()),
        _ => Ok(None),
    }
}

// The value of the only field in the only column.
fn value_of(alloc: Global, columns: &[Column], fields: &[Cell]) -> Result<Option<Value>, AllocError>
    ensures { IfOk result (λ o. o ≡ one_value columns.now fields.now) }
{
    match columns {
        [column] => only_of(alloc, column.kind, fields),
        _ => Ok(None),
    }
}

impl Extractor for OneField {
    ghost told_extractor = { λ e. one_field e.delimiter };

    ghost extractor_law = { λ e. one_field-lawful e.delimiter };

    fn fixed(&self, _alloc: Global, _out: &mut Vec<Column>) -> Result<bool, AllocError> {
        Ok(false)
    }

    fn accepts(&self, _output: &Schema, _args: &[Cell]) -> bool {
        true
    }

    fn delimiter(&self, _args: &[Cell]) -> u8 {
        self.delimiter
    }

    #[tactic(auto, using(crate::specs::OneFieldFits::one_field_fit))]
    fn extract(
        &self,
        alloc: Global,
        _args: &[Cell],
        output: &Schema,
        fields: &[Cell],
        out: &mut Vec<Value>,
    ) -> Result<bool, AllocError> {
        match value_of(alloc, output.as_slice(), fields)? {
            Some(value) => {
                out.push(value)?;
                Ok(true)
            }
            None => Ok(false),
        }
    }
}
