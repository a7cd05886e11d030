// A REDUCE with its names resolved.
ghost use Rattle.std.specs.Prelude.{◌≡◌, ◌∷◌, [], map, option_map, IfOk};
ghost use Rattle.script_trees.specs.declared.command.Command.TheVariants as raw;
ghost use Rattle.name_resolution.specs.Resolved as spec;
ghost use Rattle.names_in_sight.specs.Inputs.{before_of};
ghost use Rattle.names_in_sight.specs.Sight as sight_spec;

use crate::parts::{call_at, grouped_on, presort_of, source_of};
use col_sets::Dir;
use names_in_sight::Input;
use names_in_sight::carrying::beside;
use names_in_sight::finding::Finds;
use names_in_sight::inputs::input_of_opt;
use placed_trees::{Call, Command, Source};
use scope_value::{Column, Schema};
use script_trees::{Call as RawCall, RawKey, RawRef, Source as RawSource, Statement};
use sqlite_items::Items;
use std::alloc::{AllocError, Global};

// What a REDUCE has of places.
#[derive(Drop)]
struct ReduceKeys {
    on: Items<u32>,
    presort: Option<Items<(u32, Dir)>>,
}

fn reduce_keys(
    alloc: Global,
    input: &Input,
    presort: &Option<Items<RawKey>>,
    on: &[RawRef],
) -> Result<ReduceKeys, AllocError>
    ensures on { IfOk result (λ k. k.on ≡ map (sight_spec.place_of (sight_spec.sight_of (input.now ∷ []))) on.now) }
    ensures presort { IfOk result (λ k. k.presort ≡ option_map (sight_spec.keys_of (sight_spec.sight_of (input.now ∷ []))) presort.now) }
{
    let on = grouped_on(alloc, input, on)?;
    let presort = presort_of(alloc, input, presort)?;
    Ok(ReduceKeys { on, presort })
}

fn reducer_call<O: Finds>(
    alloc: Global,
    ops: &O,
    call: &RawCall,
    cols: &[Column],
) -> Result<Call, AllocError>
    ensures { IfOk result (λ c. c ≡ spec.call_of (O.tells ops.now).reducer_names call.now cols.now) }
{
    let op = ops.reducer_op(call.op.as_slice())?;
    call_at(alloc, op, call, cols)
}

fn reduce_with(source: Source, keys: ReduceKeys, call: Call) -> Command
    ensures { result ≡ Command.Reduce source keys.on keys.presort call }
{
    let ReduceKeys { on, presort } = keys;
    Command::Reduce {
        source,
        on,
        presort,
        call,
    }
}

// A REDUCE of this input.
fn reduce_over<O: Finds>(
    alloc: Global,
    ops: &O,
    source: &Option<RawSource>,
    keys: ReduceKeys,
    call: &RawCall,
    cols: &[Column],
) -> Result<Command, AllocError>
    ensures { IfOk result (λ c. c ≡ Command.Reduce (spec.source_of (O.tells ops.now) source.now) keys.on keys.presort
        (spec.call_of (O.tells ops.now).reducer_names call.now cols.now)) }
{
    let (keys, call) = beside(keys, reducer_call(alloc, ops, call, cols))?;
    let ((keys, call), source) = beside((keys, call), source_of(alloc, ops, source))?;
    Ok(reduce_with(source, keys, call))
}

/// A REDUCE. An error is want of memory.
pub(crate) fn reduce_of<O: Finds>(
    alloc: Global,
    ops: &O,
    statements: &[Statement],
    headings: &[Schema],
    source: &Option<RawSource>,
    presort: &Option<Items<RawKey>>,
    on: &[RawRef],
    call: &RawCall,
    cols: &[Column],
) -> Result<Command, AllocError>
    ensures { IfOk result (λ c. c ≡ spec.resolved (O.tells ops.now) (before_of statements.now headings.now) (raw.Reduce source.now presort.now on.now call.now cols.now)) }
{
    let input = input_of_opt(alloc, ops, statements, headings, source)?;
    let keys = reduce_keys(alloc, &input, presort, on)?;
    reduce_over(alloc, ops, source, keys, call, cols)
}
