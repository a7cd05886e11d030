// What is found in lists of keys.
ghost use Rattle.std.specs.Prelude.{◌≡◌, ◌++◌, map, flat_map, IfOk, OnOk};
ghost use Rattle.std.specs.List.{list_any};
ghost use Rattle.scope_expr.specs.Names as spec_names;
ghost use Rattle.script_trees.specs.declared.raw.RawRef.{RawRef as Reference};
ghost use Rattle.binding_causes.specs.Asked as asked;
ghost use Rattle.binding_causes.specs.Columns.{one_place};
ghost use Rattle.binding_causes.specs.Found as spec;
ghost use Rattle.binding_causes.specs.Found.{any_of};

use crate::found::Found;
use crate::repeats::has_double_number;
use names_in_sight::place_of;
use scope_expr::{Scope, is_ambiguous, is_unknown};
use script_trees::{RawKey, RawRef, RawStored};
use sqlite_items::Items;
use std::alloc::{AllocError, Global};

/// Columns of a list of keys, and equalities of an ON.
pub(crate) const MAX_KEYS: usize = 4;

// What names a column.
trait NamesColumn {
    ghost named_column: { Self → Reference };

    fn column(&self) -> &RawRef
        ensures { result.now ≡ named_column self.now };
}

impl NamesColumn for RawRef {
    ghost named_column = { λ r. r };

    fn column(&self) -> &RawRef {
        self
    }
}

impl NamesColumn for RawKey {
    ghost named_column = { λ k. k.column };

    fn column(&self) -> &RawRef {
        &self.column
    }
}

fn has_unknown_key<T: NamesColumn>(names: &Scope, keys: &[T]) -> bool
    ensures { result ≡ list_any (λ k. spec_names.is_unknown names.now (T.named_column k)) keys.now }
{
    keys.iter().any(|k| is_unknown(names, k.column()))
}

fn has_ambiguous_key<T: NamesColumn>(names: &Scope, keys: &[T]) -> bool
    ensures { result ≡ list_any (λ k. spec_names.is_ambiguous names.now (T.named_column k)) keys.now }
{
    keys.iter().any(|k| is_ambiguous(names, k.column()))
}

// The place of the one column that a reference names is added, if it names just one.
fn push_place(names: &Scope, r: &RawRef, places: &mut Vec<u32>) -> Result<(), AllocError>
    ensures { OnOk result (places.new.items ≡ places.old.items ++ one_place names.now r.now) }
{
    if !is_unknown(names, r) && !is_ambiguous(names, r) {
        places.push(place_of(names, r))?;
    }
    Ok(())
}

fn places_of<T: NamesColumn>(
    alloc: Global,
    names: &Scope,
    keys: &[T],
) -> Result<Vec<u32>, AllocError>
    ensures { IfOk result (λ v. v.items ≡ flat_map (one_place names.now) (map T.named_column keys.now)) }
{
    let mut places = Vec::new(alloc);
    for key in keys {
        push_place(names, key.column(), &mut places)?;
    }
    Ok(places)
}

fn in_keys<T: NamesColumn>(alloc: Global, names: &Scope, keys: &[T]) -> Result<Found, AllocError>
    ensures { IfOk result (λ f. f ≡ spec.in_keys (names.now, map T.named_column keys.now)) }
{
    let places = places_of(alloc, names, keys)?;
    Ok(Found {
        is_twice: has_double_number(places.as_slice()),
        is_unknown: has_unknown_key(names, keys),
        is_ambiguous: has_ambiguous_key(names, keys),
        has_many_keys: MAX_KEYS < keys.len(),
        ..Found::none()
    })
}

/// In a list of columns. An error is want of memory.
pub(crate) fn in_refs(
    alloc: Global,
    names: &Scope,
    refs: &Items<RawRef>,
) -> Result<Found, AllocError>
    ensures { IfOk result (λ f. f ≡ spec.in_keys (names.now, refs.now)) }
{
    in_keys(alloc, names, refs.as_slice())
}

/// In a list of columns that may be left out. An error is want of memory.
#[tactic(auto, using(crate::proofs::FoundLemmas::any_of_one))]
pub(crate) fn in_refs_opt(
    alloc: Global,
    names: &Scope,
    refs: &Option<Items<RawRef>>,
) -> Result<Found, AllocError>
    ensures { IfOk result (λ f. f ≡ any_of spec.in_keys (asked.refs_opt names.now refs.now)) }
{
    match refs {
        Some(refs) => in_refs(alloc, names, refs),
        None => Ok(Found::none()),
    }
}

/// In a list of keys to sort by, which may be left out. An error is want of memory.
#[tactic(auto, using(crate::proofs::FoundLemmas::any_of_one))]
pub(crate) fn in_keys_opt(
    alloc: Global,
    names: &Scope,
    keys: &Option<Items<RawKey>>,
) -> Result<Found, AllocError>
    ensures { IfOk result (λ f. f ≡ any_of spec.in_keys (asked.keys_opt names.now keys.now)) }
{
    match keys {
        Some(keys) => in_keys(alloc, names, keys.as_slice()),
        None => Ok(Found::none()),
    }
}

fn in_stored(alloc: Global, names: &Scope, stored: &RawStored) -> Result<Found, AllocError>
    ensures { IfOk result (λ f. f ≡ spec.either (spec.in_keys (names.now, stored.now.hash)) (any_of spec.in_keys (asked.keys_opt names.now stored.now.sorted))) }
{
    let hash = in_refs(alloc, names, &stored.hash)?;
    let sorted = in_keys_opt(alloc, names, &stored.sorted)?;
    Ok(hash.or(sorted))
}

/// In the declaration of how a stream is stored, which may be left out. An error is want of memory.
pub(crate) fn in_stored_opt(
    alloc: Global,
    names: &Scope,
    stored: &Option<RawStored>,
) -> Result<Found, AllocError>
    ensures { IfOk result (λ f. f ≡ any_of spec.in_keys (asked.stored_opt names.now stored.now)) }
{
    match stored {
        Some(stored) => in_stored(alloc, names, stored),
        None => Ok(Found::none()),
    }
}
