// Where the rows of an input come from.
ghost use Rattle.std.specs.Prelude.{◌≡◌, IfOk};
ghost use Rattle.name_resolution.specs.Queries as spec;

use names_in_sight::copies::copied_cells;
use names_in_sight::finding::Finds;
use placed_trees::{Source, Stream};
use scope_value::Cell;
use script_trees::{Call as RawCall, Joined as RawJoined, Origin};
use std::alloc::{AllocError, Global};

// A stream that is read by the extractor of that name, for its fixed columns.
fn stream_of<O: Finds>(
    alloc: Global,
    ops: &O,
    name: &Cell,
    call: &RawCall,
) -> Result<Stream, AllocError>
    ensures { IfOk result (λ s. Source.FromStream s ≡ spec.resolved_origin (O.tells ops.now) (Origin.Stream name.now call.now)) }
{
    Ok(Stream {
        op: ops.extractor_op(call.op.as_slice())?,
        name: name.copy()?,
        args: copied_cells(alloc, call.args.as_slice())?,
        schema: ops.columns_inline(alloc, call.op.as_slice())?,
        stored: None,
    })
}

/// What a source reads. An error is want of memory.
pub(crate) fn resolved_origin<O: Finds>(
    alloc: Global,
    ops: &O,
    origin: &Origin,
) -> Result<Source, AllocError>
    ensures { IfOk result (λ s. s ≡ spec.resolved_origin (O.tells ops.now) origin.now) }
{
    match origin {
        Origin::Named(name) => Ok(Source::FromResult(Some(name.copy()?))),
        Origin::Stream(name, call) => Ok(Source::FromStream(stream_of(alloc, ops, name, call)?)),
    }
}

/// The first source of a FROM, and the result of the statement just before where there is none. An error is want of memory.
pub(crate) fn first_source<O: Finds>(
    alloc: Global,
    ops: &O,
    sources: &[RawJoined],
) -> Result<Source, AllocError>
    ensures { IfOk result (λ s. s ≡ spec.first_source (O.tells ops.now) sources.now) }
{
    match sources {
        [] => Ok(Source::FromResult(None)),
        [first, ..] => resolved_origin(alloc, ops, &first.source.origin),
    }
}
