// An operator that is not shipped, as docs/OPERATORS.md builds it.
ghost use Rattle.std.specs.Prelude.{◌≡◌};
ghost use Rattle.run_tests.specs.FirstIsNull.{first_is_null, is_one_truth, begins_with_null};
ghost use Rattle.run_tests.specs.FirstIsNullFits.{first_is_null-lawful};

use scope_value::{Cell, ColType, Column, Row, Schema, Value};
use std::alloc::{AllocError, Global};
use user_ops::Processor;

/// A processor that gives, for each row, one row of whether its first value is null. It takes any input and no args, and
/// the output is one column, a bool.
#[derive(Debug, Clone, Copy)]
pub struct FirstIsNull;

fn has_one_truth(columns: &[Column]) -> bool
    ensures { result ≡ is_one_truth columns.now }
{
    match columns {
        [only] => only.kind == ColType::Bool,
        _ => false,
    }
}

fn starts_with_null(values: &[Value]) -> bool
    ensures { result ≡ begins_with_null values.now }
{
    matches!(values.first(), Some(Value::Null))
}

impl Processor for FirstIsNull {
    ghost told_processor = { λ _. first_is_null };

    ghost processor_law = { λ _. first_is_null-lawful };

    fn accepts(&self, _input: &Schema, output: &Schema, args: &[Cell]) -> bool {
        args.is_empty() && has_one_truth(output.as_slice())
    }

    #[tactic(auto, using(crate::specs::FirstIsNullFits::fit_rules))]
    fn process(
        &self,
        alloc: Global,
        _args: &[Cell],
        row: &Row,
        out: &mut Vec<Row>,
    ) -> Result<(), AllocError> {
        let mut given = Row::new(alloc);
        given.push(Value::Bool(starts_with_null(row.as_slice())))?;
        out.push(given)?;
        Ok(())
    }
}
