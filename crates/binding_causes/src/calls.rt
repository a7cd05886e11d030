// What is found in the calls of operators.
ghost use Rattle.std.specs.Prelude.{◌≡◌, [], ◌∷◌, ◌++◌, not, length, flat_map, IfOk};
ghost use Rattle.outer_joins.specs.Laws.{width_args};
ghost use Rattle.names_in_sight.specs.Operators as spec_resolved;
ghost use Rattle.binding_causes.specs.Found as spec;
ghost use Rattle.binding_causes.specs.Found.{any_of};
ghost use Rattle.binding_causes.specs.Names.{source_opt};
ghost use Rattle.binding_causes.specs.Operators as spec_operators;

use crate::found::Found;
use crate::ops::Knows;
use names_in_sight::{Input, is_outputter, outer_name, outer_side, width_args};
use outer_joins::Side;
use scope_value::{Cell, Column, Schema};
use script_trees::{Call, Command, Joined, Origin, Source};
use std::alloc::{AllocError, Global};

const MAX_ARGS: usize = 16;

// ---- extractors in place

fn in_call<O: Knows>(alloc: Global, ops: &O, call: &Call) -> Result<Found, AllocError>
    ensures { IfOk result (λ f. f ≡ spec.in_call (O.tells ops.now) call.now) }
{
    let is_taken = ops.takes_fixed(alloc, call.op.as_slice(), call.args.as_slice())?;
    Ok(Found {
        is_missing: !ops.has_extractor(call.op.as_slice()),
        is_refused: !is_taken,
        has_many_args: MAX_ARGS < call.args.len(),
        ..Found::none()
    })
}

#[tactic(auto, using(crate::proofs::FoundLemmas::any_of_one))]
fn in_origin<O: Knows>(alloc: Global, ops: &O, origin: &Origin) -> Result<Found, AllocError>
    ensures { IfOk result (λ f. f ≡ any_of (spec.in_call (O.tells ops.now)) (spec_operators.origin_calls origin.now)) }
{
    match origin {
        Origin::Named(_) => Ok(Found::none()),
        Origin::Stream(_, call) => in_call(alloc, ops, call),
    }
}

fn in_sources<O: Knows>(alloc: Global, ops: &O, sources: &[Joined]) -> Result<Found, AllocError>
    ensures { IfOk result (λ f. f ≡ any_of (spec.in_joined (O.tells ops.now)) sources.now) }
{
    let mut found = Found::none();
    for joined in sources {
        found = found.or(in_origin(alloc, ops, &joined.source.origin)?);
    }
    Ok(found)
}

fn in_source<O: Knows>(alloc: Global, ops: &O, source: &Option<Source>) -> Result<Found, AllocError>
    ensures { IfOk result (λ f. f ≡ any_of (spec.in_call (O.tells ops.now)) (flat_map (λ s. spec_operators.origin_calls s.origin) (source_opt source.now))) }
{
    match source {
        Some(source) => in_origin(alloc, ops, &source.origin),
        None => Ok(Found::none()),
    }
}

fn in_both<O: Knows>(
    alloc: Global,
    ops: &O,
    left: &Source,
    right: &Source,
) -> Result<Found, AllocError>
    ensures { IfOk result (λ f. f ≡ any_of (spec.in_call (O.tells ops.now)) (flat_map (λ s. spec_operators.origin_calls s.origin) (left.now ∷ right.now ∷ []))) }
{
    let left = in_origin(alloc, ops, &left.origin)?;
    let right = in_origin(alloc, ops, &right.origin)?;
    Ok(left.or(right))
}

/// In the calls of extractors in place. An error is want of memory.
pub(crate) fn in_inline<O: Knows>(
    alloc: Global,
    ops: &O,
    command: &Command,
) -> Result<Found, AllocError>
    ensures { IfOk result (λ f. f ≡ any_of (spec.in_call (O.tells ops.now)) (spec_operators.inline_calls command.now)) }
{
    match command {
        Command::Select(select) => in_sources(alloc, ops, select.sources.as_slice()),
        Command::Process { source, .. } => in_source(alloc, ops, source),
        Command::Reduce { source, .. } => in_source(alloc, ops, source),
        Command::Combine { left, right, .. } => in_both(alloc, ops, left, right),
        Command::Extract { .. } => Ok(Found::none()),
        Command::Output { .. } => Ok(Found::none()),
    }
}

// ---- the call of the command itself

fn in_own_call(is_there: bool, is_taken: bool, call: &Call) -> Found
    ensures { result ≡ spec.in_own_call is_there is_taken call.now }
{
    Found {
        is_missing: !is_there,
        is_refused: !is_taken,
        has_many_args: MAX_ARGS < call.args.len(),
        ..Found::none()
    }
}

fn schema_of(alloc: Global, columns: &[Column]) -> Result<Schema, AllocError>
    ensures { IfOk result (λ s. s ≡ columns.now) }
{
    let mut copy = Schema::new(alloc);
    for column in columns {
        copy.push(column.copy()?)?;
    }
    Ok(copy)
}

/// In the call of an EXTRACT of these columns. An error is want of memory.
pub(crate) fn in_extractor<O: Knows>(
    alloc: Global,
    ops: &O,
    call: &Call,
    cols: &[Column],
) -> Result<Found, AllocError>
    ensures { IfOk result (λ f. let told = O.tells ops.now in
        f ≡ spec.in_own_call (spec_operators.is_in told.extractor_names call.now.op) (spec_operators.extractor_takes told call.now.op call.now.args cols.now) call.now) }
{
    let cols = schema_of(alloc, cols)?;
    let is_taken = ops.extractor_takes(call.op.as_slice(), call.args.as_slice(), &cols);
    Ok(in_own_call(ops.has_extractor(call.op.as_slice()), is_taken, call))
}

/// In the call of a PROCESS. An error is want of memory.
pub(crate) fn in_processor<O: Knows>(
    alloc: Global,
    ops: &O,
    call: &Call,
    input: &Schema,
    cols: &[Column],
) -> Result<Found, AllocError>
    ensures { IfOk result (λ f. let told = O.tells ops.now in
        f ≡ spec.in_own_call (spec_operators.is_in told.processor_names call.now.op) (spec_operators.processor_takes told call.now.op call.now.args input.now cols.now) call.now) }
{
    let cols = schema_of(alloc, cols)?;
    let is_taken = ops.processor_takes(call.op.as_slice(), call.args.as_slice(), input, &cols);
    Ok(in_own_call(ops.has_processor(call.op.as_slice()), is_taken, call))
}

/// In the call of a REDUCE. An error is want of memory.
pub(crate) fn in_reducer<O: Knows>(
    alloc: Global,
    ops: &O,
    call: &Call,
    input: &Schema,
    cols: &[Column],
) -> Result<Found, AllocError>
    ensures { IfOk result (λ f. let told = O.tells ops.now in
        f ≡ spec.in_own_call (spec_operators.is_in told.reducer_names call.now.op) (spec_operators.reducer_takes told call.now.op call.now.args input.now cols.now) call.now) }
{
    let cols = schema_of(alloc, cols)?;
    let is_taken = ops.reducer_takes(call.op.as_slice(), call.args.as_slice(), input, &cols);
    Ok(in_own_call(ops.has_reducer(call.op.as_slice()), is_taken, call))
}

/// In the call of a COMBINE. An error is want of memory.
pub(crate) fn in_combiner<O: Knows>(
    alloc: Global,
    ops: &O,
    call: &Call,
    left: &Schema,
    right: &Schema,
    cols: &[Column],
) -> Result<Found, AllocError>
    ensures { IfOk result (λ f. let told = O.tells ops.now in
        f ≡ spec.in_own_call (spec_operators.is_in told.combiner_names call.now.op) (spec_operators.combiner_takes told call.now.op call.now.args left.now right.now cols.now) call.now) }
{
    let cols = schema_of(alloc, cols)?;
    let is_taken = ops.combiner_takes(call.op.as_slice(), call.args.as_slice(), left, right, &cols);
    Ok(in_own_call(ops.has_combiner(call.op.as_slice()), is_taken, call))
}

// ---- the outer join of a SELECT

/// The side of the outer join of two sources.
pub(crate) fn side_of(sources: &[Joined]) -> Option<Side>
    ensures { result ≡ spec_operators.side_of sources.now }
{
    match sources {
        [_, joined] => outer_side(joined.side),
        _ => None,
    }
}

fn both(alloc: Global, left: &Schema, right: &Schema) -> Result<Schema, AllocError>
    ensures { IfOk result (λ s. s ≡ left.now ++ right.now) }
{
    let mut columns = schema_of(alloc, left.as_slice())?;
    for column in right.as_slice() {
        columns.push(column.copy()?)?;
    }
    Ok(columns)
}

fn takes_both<O: Knows>(
    alloc: Global,
    ops: &O,
    side: Side,
    left: &Schema,
    right: &Schema,
) -> Result<bool, AllocError>
    ensures { IfOk result (λ b. b ≡ spec_operators.combiner_takes (O.tells ops.now) (spec_resolved.outer_name side) (width_args (length left.now) (length right.now)) left.now right.now (left.now ++ right.now)) }
{
    let args = width_args(alloc, left.len(), right.len())?;
    let output = both(alloc, left, right)?;
    Ok(ops.combiner_takes(outer_name(side), args.as_slice(), left, right, &output))
}

fn takes_outer<O: Knows>(
    alloc: Global,
    ops: &O,
    side: Side,
    inputs: &[Input],
) -> Result<bool, AllocError>
    ensures { IfOk result (λ b. b ≡ spec_operators.takes_outer (O.tells ops.now) side inputs.now) }
{
    match inputs {
        [left, right] => takes_both(alloc, ops, side, &left.columns, &right.columns),
        _ => Ok(true),
    }
}

/// In the combiner of the outer join of a SELECT, whose inputs are given. An error is want of memory.
pub(crate) fn in_outer<O: Knows>(
    alloc: Global,
    ops: &O,
    inputs: &[Input],
    sources: &[Joined],
) -> Result<Found, AllocError>
    ensures { IfOk result (λ f. let told = O.tells ops.now in
        f ≡ record spec.none { is_missing = spec_operators.is_combiner_missing told (spec_operators.side_of sources.now); is_refused = not (spec_operators.outer_taken told inputs.now sources.now) }) }
{
    match side_of(sources) {
        None => Ok(Found::none()),
        Some(side) => {
            let is_taken = takes_outer(alloc, ops, side, inputs)?;
            Ok(Found {
                is_missing: !ops.has_combiner(outer_name(side)),
                is_refused: !is_taken,
                ..Found::none()
            })
        }
    }
}

/// In the outputter of an OUTPUT.
pub(crate) fn in_outputter(outputter: &Option<Cell>) -> Found
    ensures { result ≡ record spec.none { is_missing = not (spec_resolved.is_outputter outputter.now) } }
{
    Found {
        is_missing: !is_outputter(outputter),
        ..Found::none()
    }
}
