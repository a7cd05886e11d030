// Which earlier results and which streams a statement reads, and the columns of each.
ghost use Rattle.std.specs.Prelude.{◌≡◌, ◌<◌, [], ◌∷◌, length, map, IfOk, IfSome, Some, None};
ghost use Rattle.std.specs.Option.{option_copied};
ghost use Rattle.names_in_sight.specs.Inputs as spec;
ghost use Rattle.names_in_sight.specs.Inputs.{before_of};

use crate::copies::{copied_columns, owned_name};
use crate::finding::Finds;
use crate::input::Input;
use scope_value::{Cell, Column, Schema};
use script_trees::{Command, Joined, Origin, Source, Statement};
use sqlite_items::Items;
use std::alloc::{AllocError, Global};

fn is_named(name: &Cell, statement: &Statement) -> bool
    ensures { result ≡ spec.is_named name.now statement.now }
{
    match &statement.name {
        Some(own) => own.as_slice() == name.as_slice(),
        None => false,
    }
}

fn gives(command: &Command) -> bool
    ensures { result ≡ spec.gives command.now }
{
    !matches!(command, Command::Output { .. })
}

// The number of the first statement of that name.
fn number_of(statements: &[Statement], name: &Cell) -> Option<usize>
    ensures at { result ≡ spec.input_at statements.now (Some name.now) }
    ensures within { IfSome result (λ at. at < length statements.now) }
{
    statements.iter().position(|s| is_named(name, s))
}

// The number of the last statement, where it has a result.
fn number_before(statements: &[Statement]) -> Option<usize>
    ensures at { result ≡ spec.input_at statements.now None }
    ensures within { IfSome result (λ at. at < length statements.now) }
{
    let last = statements.last()?;
    if gives(&last.command) {
        Some(statements.len() - 1)
    } else {
        None
    }
}

/// The number of the statement that an input is the result of: the first of that name, and without a name the statement just before,
/// unless that is an OUTPUT.
pub fn input_at(statements: &[Statement], name: Option<&Cell>) -> Option<usize>
    ensures at { result ≡ spec.input_at statements.now (option_copied name.entry) }
    ensures within { IfSome result (λ at. at < length statements.now) }
{
    match name {
        Some(name) => number_of(statements, name),
        None => number_before(statements),
    }
}

/// The columns of that result, and none where it isn't there. `headings` has the columns of the result of each statement.
pub fn heading_at<'a>(
    statements: &[Statement],
    headings: &'a [Schema],
    name: Option<&Cell>,
) -> &'a [Column]
    ensures { result.now ≡ spec.heading_at (before_of statements.now headings.now) (option_copied name.entry) }
{
    match input_at(statements, name) {
        Some(at) => match headings.get(at) {
            Some(heading) => heading.as_slice(),
            None => &[],
        },
        None => &[],
    }
}

/// The name that the columns of a source go by: the alias that is written, or a result's own name.
pub fn alias_of<'a>(source: &'a Source) -> Option<&'a Cell>
    ensures { option_copied result ≡ spec.alias_of source.now.origin source.now.alias }
{
    match (&source.alias, &source.origin) {
        (Some(alias), _) => Some(alias),
        (None, Origin::Named(name)) => Some(name),
        (None, Origin::Stream(_, _)) => None,
    }
}

// The columns of what a source reads.
fn columns_of<O: Finds>(
    alloc: Global,
    ops: &O,
    statements: &[Statement],
    headings: &[Schema],
    origin: &Origin,
) -> Result<Schema, AllocError>
    ensures { IfOk result (λ cs. cs ≡ spec.columns_of (O.tells ops.now) (before_of statements.now headings.now) origin.now) }
{
    match origin {
        Origin::Named(name) => copied_columns(alloc, heading_at(statements, headings, Some(name))),
        Origin::Stream(_, call) => ops.columns_inline(alloc, call.op.as_slice()),
    }
}

/// What is read of a source. `statements` and `headings` are what stands before the statement: its statements, and the columns of the
/// result of each. An error is want of memory.
pub fn input_of<O: Finds>(
    alloc: Global,
    ops: &O,
    statements: &[Statement],
    headings: &[Schema],
    source: &Source,
) -> Result<Input, AllocError>
    ensures { IfOk result (λ i. i ≡ spec.input_of (O.tells ops.now) (before_of statements.now headings.now) source.now) }
{
    let alias = owned_name(alias_of(source))?;
    let columns = columns_of(alloc, ops, statements, headings, &source.origin)?;
    Ok(Input { alias, columns })
}

/// The same, and the result of the statement just before where the source is left out. An error is want of memory.
pub fn input_of_opt<O: Finds>(
    alloc: Global,
    ops: &O,
    statements: &[Statement],
    headings: &[Schema],
    source: &Option<Source>,
) -> Result<Input, AllocError>
    ensures { IfOk result (λ i. i ≡ spec.input_of_opt (O.tells ops.now) (before_of statements.now headings.now) source.now) }
{
    match source {
        Some(source) => input_of(alloc, ops, statements, headings, source),
        None => Ok(Input {
            alias: None,
            columns: copied_columns(alloc, heading_at(statements, headings, None))?,
        }),
    }
}

/// What is read by a FROM, source by source; the result of the statement just before where it is left out. An error is want of memory.
pub fn inputs_of<O: Finds>(
    alloc: Global,
    ops: &O,
    statements: &[Statement],
    headings: &[Schema],
    sources: &[Joined],
) -> Result<Items<Input>, AllocError>
    ensures { IfOk result (λ is. is ≡ spec.inputs_of (O.tells ops.now) (before_of statements.now headings.now) sources.now) }
{
    if sources.is_empty() {
        return one_input(
            alloc,
            input_of_opt(alloc, ops, statements, headings, &None)?,
        );
    }
    written_inputs(alloc, ops, statements, headings, sources)
}

/// The one input. An error is want of memory.
pub fn one_input(alloc: Global, input: Input) -> Result<Items<Input>, AllocError>
    ensures { IfOk result (λ is. is ≡ input ∷ []) }
{
    let mut inputs = Items::new(alloc);
    inputs.push(input)?;
    Ok(inputs)
}

fn written_inputs<O: Finds>(
    alloc: Global,
    ops: &O,
    statements: &[Statement],
    headings: &[Schema],
    sources: &[Joined],
) -> Result<Items<Input>, AllocError>
    ensures { IfOk result (λ is. is ≡ map (λ j. spec.input_of (O.tells ops.now) (before_of statements.now headings.now) j.source) sources.now) }
{
    let mut inputs = Items::new(alloc);
    for joined in sources {
        inputs.push(input_of(alloc, ops, statements, headings, &joined.source)?)?;
    }
    Ok(inputs)
}
