// Parts of commands with their names resolved.
ghost use Rattle.std.specs.Prelude.{◌≡◌, ◌∷◌, [], map, option_map, IfOk};
ghost use Rattle.name_resolution.specs.Resolved as spec;
ghost use Rattle.names_in_sight.specs.Sight as sight_spec;

use crate::sources::resolved_origin;
use col_sets::Dir;
use names_in_sight::Input;
use names_in_sight::copies::{copied_cells, copied_columns};
use names_in_sight::finding::Finds;
use names_in_sight::sight::{keys_of_opt, places_of, sight_of, sight_of_columns};
use placed_trees::{Call, Source, StoredPlaces};
use scope_expr::Scope;
use scope_value::Column;
use script_trees::{Call as RawCall, RawKey, RawRef, RawStored, Source as RawSource};
use sqlite_items::Items;
use std::alloc::{AllocError, Global};
use std::slice::from_ref;

/// What an input reads: the result of the statement just before where it is left out. An error is want of memory.
pub(crate) fn source_of<O: Finds>(
    alloc: Global,
    ops: &O,
    source: &Option<RawSource>,
) -> Result<Source, AllocError>
    ensures { IfOk result (λ s. s ≡ spec.source_of (O.tells ops.now) source.now) }
{
    match source {
        Some(source) => resolved_origin(alloc, ops, &source.origin),
        None => Ok(Source::FromResult(None)),
    }
}

/// The call of the operator at this place, which gives these columns. An error is want of memory.
pub(crate) fn call_at(
    alloc: Global,
    op: u32,
    call: &RawCall,
    cols: &[Column],
) -> Result<Call, AllocError>
    ensures { IfOk result (λ c. c ≡ record { op = op; args = call.now.args; output = cols.now }) }
{
    let args = copied_cells(alloc, call.args.as_slice())?;
    let output = copied_columns(alloc, cols)?;
    Ok(Call { op, args, output })
}

fn stored_of(
    alloc: Global,
    names: &Scope,
    stored: &Option<RawStored>,
) -> Result<Option<StoredPlaces>, AllocError>
    ensures { IfOk result (λ s. s ≡ spec.stored_of names.now stored.now) }
{
    match stored {
        Some(stored) => {
            let hash = places_of(alloc, names, stored.hash.as_slice())?;
            let sorted = keys_of_opt(alloc, names, &stored.sorted)?;
            Ok(Some(StoredPlaces { hash, sorted }))
        }
        None => Ok(None),
    }
}

/// How a stream of these columns is declared to be stored, by places among them. An error is want of memory.
pub(crate) fn stored_among(
    alloc: Global,
    columns: &[Column],
    stored: &Option<RawStored>,
) -> Result<Option<StoredPlaces>, AllocError>
    ensures { IfOk result (λ s. s ≡ spec.stored_of (sight_spec.sight_of_columns columns.now) stored.now) }
{
    let names = sight_of_columns(alloc, columns)?;
    stored_of(alloc, &names, stored)
}

/// The keys to presort an input by. An error is want of memory.
pub(crate) fn presort_of(
    alloc: Global,
    input: &Input,
    presort: &Option<Items<RawKey>>,
) -> Result<Option<Items<(u32, Dir)>>, AllocError>
    ensures { IfOk result (λ ks. ks ≡ option_map (sight_spec.keys_of (sight_spec.sight_of (input.now ∷ []))) presort.now) }
{
    let names = sight_of(alloc, from_ref(input))?;
    keys_of_opt(alloc, &names, presort)
}

/// The places of the columns that the rows of an input are grouped by. An error is want of memory.
pub(crate) fn grouped_on(
    alloc: Global,
    input: &Input,
    on: &[RawRef],
) -> Result<Items<u32>, AllocError>
    ensures { IfOk result (λ ps. ps ≡ map (sight_spec.place_of (sight_spec.sight_of (input.now ∷ []))) on.now) }
{
    let names = sight_of(alloc, from_ref(input))?;
    places_of(alloc, &names, on)
}
