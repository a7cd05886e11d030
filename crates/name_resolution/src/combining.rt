// A COMBINE with its names resolved.
ghost use Rattle.std.specs.Prelude.{◌≡◌, ◌∷◌, [], option_map, IfOk};
ghost use Rattle.script_trees.specs.declared.command.Command.TheVariants as raw;
ghost use Rattle.name_resolution.specs.Resolved as spec;
ghost use Rattle.names_in_sight.specs.Views as views_spec;
ghost use Rattle.name_resolution.specs.Queries as queries_spec;
ghost use Rattle.names_in_sight.specs.Inputs.{before_of};
ghost use Rattle.names_in_sight.specs.Inputs as inputs_spec;
ghost use Rattle.names_in_sight.specs.Sight as sight_spec;

use crate::parts::{call_at, presort_of};
use crate::sources::resolved_origin;
use col_sets::Dir;
use names_in_sight::Input;
use names_in_sight::carrying::beside;
use names_in_sight::equalities::{pairs_of, sides_of};
use names_in_sight::finding::Finds;
use names_in_sight::inputs::input_of;
use placed_trees::{Call, Command, Source};
use scope_value::{Column, Schema};
use script_trees::{Call as RawCall, RawKey, RefPair, Source as RawSource, Statement};
use sqlite_items::Items;
use std::alloc::{AllocError, Global};
use std::slice::from_ref;

// What a COMBINE has of places.
#[derive(Drop)]
struct CombineKeys {
    left: Option<Items<(u32, Dir)>>,
    right: Option<Items<(u32, Dir)>>,
    on: Items<(u32, u32)>,
}

fn combined_on(
    alloc: Global,
    left: &Input,
    right: &Input,
    on: &[RefPair],
) -> Result<Items<(u32, u32)>, AllocError>
    ensures { IfOk result (λ ps. ps ≡ views_spec.pairs_of (views_spec.sides_of (left.now ∷ []) right.now) on.now) }
{
    let sides = sides_of(alloc, from_ref(left), right)?;
    pairs_of(alloc, &sides, on)
}

fn keys_between(
    alloc: Global,
    left: &Input,
    left_presort: &Option<Items<RawKey>>,
    right: &Input,
    right_presort: &Option<Items<RawKey>>,
    on: &[RefPair],
) -> Result<CombineKeys, AllocError>
    ensures left { IfOk result (λ k. k.left ≡ option_map (sight_spec.keys_of (sight_spec.sight_of (left.now ∷ []))) left_presort.now) }
    ensures right { IfOk result (λ k. k.right ≡ option_map (sight_spec.keys_of (sight_spec.sight_of (right.now ∷ []))) right_presort.now) }
    ensures on { IfOk result (λ k. k.on ≡ views_spec.pairs_of (views_spec.sides_of (left.now ∷ []) right.now) on.now) }
{
    let on = combined_on(alloc, left, right, on)?;
    let left = presort_of(alloc, left, left_presort)?;
    let right = presort_of(alloc, right, right_presort)?;
    Ok(CombineKeys { left, right, on })
}

fn combiner_call<O: Finds>(
    alloc: Global,
    ops: &O,
    call: &RawCall,
    cols: &[Column],
) -> Result<Call, AllocError>
    ensures { IfOk result (λ c. c ≡ spec.call_of (O.tells ops.now).combiner_names call.now cols.now) }
{
    let op = ops.combiner_op(call.op.as_slice())?;
    call_at(alloc, op, call, cols)
}

fn two_sources<O: Finds>(
    alloc: Global,
    ops: &O,
    left: &RawSource,
    right: &RawSource,
) -> Result<(Source, Source), AllocError>
    ensures left { IfOk result (λ s. s.0 ≡ queries_spec.resolved_origin (O.tells ops.now) left.now.origin) }
    ensures right { IfOk result (λ s. s.1 ≡ queries_spec.resolved_origin (O.tells ops.now) right.now.origin) }
{
    let left = resolved_origin(alloc, ops, &left.origin)?;
    beside(left, resolved_origin(alloc, ops, &right.origin))
}

fn combine_with(sources: (Source, Source), keys: CombineKeys, call: Call) -> Command
    ensures { result ≡ Command.Combine sources.0 keys.left sources.1 keys.right keys.on call }
{
    let CombineKeys {
        left: left_presort,
        right: right_presort,
        on,
    } = keys;
    let (left, right) = sources;
    Command::Combine {
        left,
        left_presort,
        right,
        right_presort,
        on,
        call,
    }
}

// A COMBINE of these inputs.
fn combine_over<O: Finds>(
    alloc: Global,
    ops: &O,
    left: &RawSource,
    right: &RawSource,
    keys: CombineKeys,
    call: &RawCall,
    cols: &[Column],
) -> Result<Command, AllocError>
    ensures { IfOk result (λ c. c ≡ Command.Combine (queries_spec.resolved_origin (O.tells ops.now) left.now.origin) keys.left
        (queries_spec.resolved_origin (O.tells ops.now) right.now.origin) keys.right keys.on
        (spec.call_of (O.tells ops.now).combiner_names call.now cols.now)) }
{
    let (keys, call) = beside(keys, combiner_call(alloc, ops, call, cols))?;
    let ((keys, call), sources) = beside((keys, call), two_sources(alloc, ops, left, right))?;
    Ok(combine_with(sources, keys, call))
}

// What a COMBINE of these sources has of places.
fn combine_keys<O: Finds>(
    alloc: Global,
    ops: &O,
    statements: &[Statement],
    headings: &[Schema],
    left: &RawSource,
    left_presort: &Option<Items<RawKey>>,
    right: &RawSource,
    right_presort: &Option<Items<RawKey>>,
    on: &[RefPair],
) -> Result<CombineKeys, AllocError>
    ensures left { IfOk result (λ k. k.left ≡ option_map (sight_spec.keys_of (sight_spec.sight_of (inputs_spec.input_of (O.tells ops.now) (before_of statements.now headings.now) left.now ∷ []))) left_presort.now) }
    ensures right { IfOk result (λ k. k.right ≡ option_map (sight_spec.keys_of (sight_spec.sight_of (inputs_spec.input_of (O.tells ops.now) (before_of statements.now headings.now) right.now ∷ []))) right_presort.now) }
    ensures on { IfOk result (λ k. k.on ≡ views_spec.pairs_of
        (views_spec.sides_of (inputs_spec.input_of (O.tells ops.now) (before_of statements.now headings.now) left.now ∷ []) (inputs_spec.input_of (O.tells ops.now) (before_of statements.now headings.now) right.now)) on.now) }
{
    let left = input_of(alloc, ops, statements, headings, left)?;
    let right = input_of(alloc, ops, statements, headings, right)?;
    keys_between(alloc, &left, left_presort, &right, right_presort, on)
}

/// A COMBINE. An error is want of memory.
pub(crate) fn combine_of<O: Finds>(
    alloc: Global,
    ops: &O,
    statements: &[Statement],
    headings: &[Schema],
    left: &RawSource,
    left_presort: &Option<Items<RawKey>>,
    right: &RawSource,
    right_presort: &Option<Items<RawKey>>,
    on: &[RefPair],
    call: &RawCall,
    cols: &[Column],
) -> Result<Command, AllocError>
    ensures { IfOk result (λ c. c ≡ spec.resolved (O.tells ops.now) (before_of statements.now headings.now) (raw.Combine left.now left_presort.now right.now right_presort.now on.now call.now cols.now)) }
{
    let keys = combine_keys(
        alloc,
        ops,
        statements,
        headings,
        left,
        left_presort,
        right,
        right_presort,
        on,
    )?;
    combine_over(alloc, ops, left, right, keys, call, cols)
}
