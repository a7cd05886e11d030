// Commands with their names resolved, each of its kind.
ghost use Rattle.std.specs.Prelude.{◌≡◌, IfOk};
ghost use Rattle.script_trees.specs.declared.command.Command.TheVariants as raw;
ghost use Rattle.name_resolution.specs.Resolved as spec;
ghost use Rattle.names_in_sight.specs.Operators as operators_spec;
ghost use Rattle.names_in_sight.specs.Inputs.{before_of};
ghost use Rattle.names_in_sight.specs.Inputs as inputs_spec;
ghost use Rattle.names_in_sight.specs.Sight as sight_spec;

use crate::parts::{call_at, source_of, stored_among};
use crate::queries::query_of;
use names_in_sight::carrying::beside;
use names_in_sight::copies::{copied_cells, copied_columns, copied_name};
use names_in_sight::finding::Finds;
use names_in_sight::inputs::heading_at;
use names_in_sight::operators::delimiter_of;
use names_in_sight::views::view_of;
use placed_trees::{Command, StoredPlaces, Stream, Written};
use scope_value::{Cell, Column, Schema};
use script_trees::{Call as RawCall, RawStored, Select, Source as RawSource, Statement};
use std::alloc::{AllocError, Global};

// The columns of a stream that is declared with them, and how it is declared to be stored.
fn declared(
    alloc: Global,
    cols: &[Column],
    stored: &Option<RawStored>,
) -> Result<(Schema, Option<StoredPlaces>), AllocError>
    ensures columns { IfOk result (λ d. d.0 ≡ cols.now) }
    ensures stored { IfOk result (λ d. d.1 ≡ spec.stored_of (sight_spec.sight_of_columns cols.now) stored.now) }
{
    let columns = copied_columns(alloc, cols)?;
    beside(columns, stored_among(alloc, cols, stored))
}

/// An EXTRACT. An error is want of memory.
pub(crate) fn extract_of<O: Finds>(
    alloc: Global,
    ops: &O,
    cols: &[Column],
    stream: &Cell,
    call: &RawCall,
    stored: &Option<RawStored>,
) -> Result<Command, AllocError>
    ensures { IfOk result (λ c. c ≡ Command.Extract (record {
      name = stream.now;
      op = operators_spec.op_of (O.tells ops.now).extractor_names call.now.op;
      args = call.now.args;
      schema = cols.now;
      stored = spec.stored_of (sight_spec.sight_of_columns cols.now) stored.now;
    })) }
{
    let op = ops.extractor_op(call.op.as_slice())?;
    let name = stream.copy()?;
    let (name, args) = beside(name, copied_cells(alloc, call.args.as_slice()))?;
    let ((name, args), (schema, stored)) = beside((name, args), declared(alloc, cols, stored))?;
    Ok(Command::Extract(Stream {
        name,
        op,
        args,
        schema,
        stored,
    }))
}

/// A SELECT. An error is want of memory.
pub(crate) fn select_of<O: Finds>(
    alloc: Global,
    ops: &O,
    statements: &[Statement],
    headings: &[Schema],
    select: &Select,
) -> Result<Command, AllocError>
    ensures { IfOk result (λ c. c ≡ spec.resolved (O.tells ops.now) (before_of statements.now headings.now) (raw.Select select.now)) }
{
    let view = view_of(alloc, ops, statements, headings, select)?;
    let query = query_of(alloc, ops, statements, headings, select, view)?;
    Ok(Command::Select(query))
}

/// A PROCESS. An error is want of memory.
pub(crate) fn process_of<O: Finds>(
    alloc: Global,
    ops: &O,
    source: &Option<RawSource>,
    call: &RawCall,
    cols: &[Column],
) -> Result<Command, AllocError>
    ensures { IfOk result (λ c. c ≡ Command.Process (spec.source_of (O.tells ops.now) source.now) (spec.call_of (O.tells ops.now).processor_names call.now cols.now)) }
{
    let op = ops.processor_op(call.op.as_slice())?;
    let call = call_at(alloc, op, call, cols)?;
    let (call, source) = beside(call, source_of(alloc, ops, source))?;
    Ok(Command::Process(source, call))
}

/// An OUTPUT. An error is want of memory.
pub(crate) fn output_of(
    alloc: Global,
    statements: &[Statement],
    headings: &[Schema],
    source: &Option<Cell>,
    stream: &Cell,
    outputter: &Option<Cell>,
    stored: &Option<RawStored>,
) -> Result<Command, AllocError>
    ensures { IfOk result (λ c. c ≡ Command.Output (record {
      source = source.now;
      stream = stream.now;
      delimiter = operators_spec.delimiter_of outputter.now;
      stored = spec.stored_of (sight_spec.sight_of_columns (inputs_spec.heading_at (before_of statements.now headings.now) source.now)) stored.now;
    })) }
{
    let columns = heading_at(statements, headings, source.as_ref());
    let stored = stored_among(alloc, columns, stored)?;
    let (stored, source) = beside(stored, copied_name(source))?;
    let ((stored, source), stream) = beside((stored, source), stream.copy())?;
    Ok(Command::Output(Written {
        source,
        stream,
        delimiter: delimiter_of(outputter),
        stored,
    }))
}
