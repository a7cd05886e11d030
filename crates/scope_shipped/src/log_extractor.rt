// Rows out of the records of a query log.
ghost use Rattle.std.specs.Prelude.{◌≡◌, ◌++◌, ◌∷◌, [], Some, None, IfOk, length, slice_get, take, option_map, if◌then◌else◌};
ghost use Rattle.std.specs.List.{list_all};
ghost use Rattle.std.specs.Option.{option_copied, option_and_then};
ghost use Rattle.scope_shipped.specs.LogExtractor.{log_extractor, log_columns, is_named, is_log_column, log_place, log_value, log_values, named};
ghost use Rattle.scope_shipped.specs.Lawful.{log_extractor-lawful};

use crate::refusals::keep_if_taken;
use crate::same_types::is_same_type;
use row_codec::read_field;
use scope_value::{Cell, ColType, Column, Schema, Value};
use std::alloc::{AllocError, Global};
use user_ops::Extractor;

/// An extractor for query logs: a record has exactly three fields, the user, the query and the clicks, with a tab between
/// them. Its fixed columns are `user:string`, `query:string` and `clicks:int`. The output's columns are some of these, in
/// any order, each read from the field of its name. It takes no args.
#[derive(Clone, Copy)]
pub struct LogExtractor;

// A column of this name and type.
fn column_of(alloc: Global, name: &[u8], kind: ColType) -> Result<Column, AllocError>
    ensures { IfOk result (λ column. column ≡ named name.now kind) }
{
    Ok(Column {
        name: Cell::from_slice(alloc, name)?,
        kind,
    })
}

// The fixed columns, in the order of a record's fields.
fn fixed_columns(alloc: Global) -> Result<Vec<Column>, AllocError>
    ensures { IfOk result (λ columns. columns.items ≡ log_columns) }
{
    let mut columns = Vec::new(alloc);
    columns.push(column_of(alloc, b"user", ColType::Text)?)?;
    columns.push(column_of(alloc, b"query", ColType::Text)?)?;
    columns.push(column_of(alloc, b"clicks", ColType::Int)?)?;
    Ok(columns)
}

// Whether the column has this name and type.
fn is_column(column: &Column, name: &[u8], kind: ColType) -> bool
    ensures { result ≡ is_named name.now kind column.now }
{
    column.name.as_slice() == name && is_same_type(column.kind, kind)
}

// Whether the column is one of the fixed columns.
fn is_fixed(column: &Column) -> bool
    ensures { result ≡ is_log_column column.now }
{
    is_column(column, b"user", ColType::Text)
        || is_column(column, b"query", ColType::Text)
        || is_column(column, b"clicks", ColType::Int)
}

// Whether each column is one of the fixed columns.
fn are_fixed(columns: &[Column]) -> bool
    ensures { result ≡ list_all is_log_column columns.now }
{
    columns.iter().all(|column| is_fixed(column))
}

// Which field of a record a name stands for.
fn place_of(name: &[u8]) -> Option<usize>
    ensures { result ≡ log_place name.now }
{
    if name == b"user".as_slice() {
        Some(0)
    } else if name == b"query".as_slice() {
        Some(1)
    } else if name == b"clicks".as_slice() {
        Some(2)
    } else {
        None
    }
}

// The field of a record that a name stands for.
fn field_of<'a>(name: &[u8], fields: &'a [Cell]) -> Option<&'a Cell>
    ensures { option_copied result ≡ option_and_then (slice_get fields.now) (log_place name.now) }
{
    fields.get(place_of(name)?)
}

// The value of a column, if it can be read.
fn read_column(alloc: Global, column: &Column, fields: &[Cell]) -> Result<Option<Value>, AllocError>
    ensures { IfOk result (λ value. value ≡ log_value fields.now column.now) }
{
    match field_of(column.name.as_slice(), fields) {
        Some(field) => read_field(alloc, column.kind, field.as_slice()),
        None => Ok(None),
    }
}

// Adds the values of the columns, and answers whether each could be read. What it added before it stopped stays.
fn push_columns(
    alloc: Global,
    columns: &[Column],
    fields: &[Cell],
    out: &mut Vec<Value>,
) -> Result<bool, AllocError>
    ensures read { IfOk result (λ taken.
        (if taken then Some out.new.items else None)
        ≡ option_map (λ row. out.old.items ++ row) (log_values fields.now columns.now)) }
    ensures kept { take (length out.old.items) out.new.items ≡ out.old.items }
{
    for column in columns {
        match read_column(alloc, column, fields)? {
            Some(value) => out.push(value)?,
            None => return Ok(false),
        }
    }
    Ok(true)
}

impl Extractor for LogExtractor {
    ghost told_extractor = { λ _. log_extractor };

    ghost extractor_law = { λ _. log_extractor-lawful };

    fn fixed(&self, alloc: Global, out: &mut Vec<Column>) -> Result<bool, AllocError> {
        let mut columns = fixed_columns(alloc)?;
        out.append(&mut columns)?;
        Ok(true)
    }

    fn accepts(&self, output: &Schema, args: &[Cell]) -> bool {
        args.is_empty() && are_fixed(output.as_slice())
    }

    fn delimiter(&self, _args: &[Cell]) -> u8 {
        b'\t'
    }

    #[tactic(auto, using(crate::proofs::FitRules::fit_rules))]
    fn extract(
        &self,
        alloc: Global,
        _args: &[Cell],
        output: &Schema,
        fields: &[Cell],
        out: &mut Vec<Value>,
    ) -> Result<bool, AllocError> {
        if fields.len() != 3 {
            return Ok(false);
        }
        let held = out.len();
        let taken = push_columns(alloc, output.as_slice(), fields, out);
        keep_if_taken(taken, held, out)
    }
}
