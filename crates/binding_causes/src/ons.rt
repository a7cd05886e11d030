// What is found in the equalities of an ON.
ghost use Rattle.std.specs.Prelude.{◌≡◌, ◌<◌, ◌≤◌, length, take, drop, get_or, IfOk};
ghost use Rattle.std.specs.List.{list_any};
ghost use Rattle.names_in_sight.specs.declared.input.Input.{Input as Entered};
ghost use Rattle.names_in_sight.specs.Views.{sides_of};
ghost use Rattle.binding_causes.specs.Asked.{ons_from, ons_of};
ghost use Rattle.binding_causes.specs.Columns as spec_columns;
ghost use Rattle.binding_causes.specs.Found as spec;
ghost use Rattle.binding_causes.specs.Found.{any_of};

use crate::found::Found;
use crate::keys::MAX_KEYS;
use names_in_sight::{Input, Sides, are_sides, left_of, right_of, sides_of};
use scope_expr::{Scope, are_alike, column_of, is_ambiguous};
use scope_value::ColType;
use script_trees::{Joined, RawRef, RefPair};
use std::alloc::{AllocError, Global};

fn has_no_sides(sides: &Sides, pair: &RefPair) -> bool
    ensures { result ≡ spec_columns.has_no_sides sides.now pair.now }
{
    !are_sides(sides, &pair.0, &pair.1) && !are_sides(sides, &pair.1, &pair.0)
}

fn is_pair_ambiguous(sides: &Sides, pair: &RefPair) -> bool
    ensures { result ≡ spec_columns.is_pair_ambiguous sides.now pair.now }
{
    is_ambiguous(&sides.both, &pair.0) || is_ambiguous(&sides.both, &pair.1)
}

fn type_of(names: &Scope, r: &RawRef) -> ColType
    ensures { result ≡ spec_columns.type_of names.now r.now }
{
    match column_of(names, r) {
        Some(entry) => entry.kind,
        None => ColType::Text,
    }
}

fn is_pair_mismatched(sides: &Sides, pair: &RefPair) -> bool
    ensures { result ≡ spec_columns.is_pair_mismatched sides.now pair.now }
{
    let left = type_of(&sides.left, left_of(sides, pair));
    let right = type_of(&sides.right, right_of(sides, pair));
    !are_alike(left, right)
}

fn has_unknown_pair(sides: &Sides, on: &[RefPair]) -> bool
    ensures { result ≡ list_any (spec_columns.has_no_sides sides.now) on.now }
{
    on.iter().any(|pair| has_no_sides(sides, pair))
}

fn has_ambiguous_pair(sides: &Sides, on: &[RefPair]) -> bool
    ensures { result ≡ list_any (spec_columns.is_pair_ambiguous sides.now) on.now }
{
    on.iter().any(|pair| is_pair_ambiguous(sides, pair))
}

fn has_mismatched_pair(sides: &Sides, on: &[RefPair]) -> bool
    ensures { result ≡ list_any (spec_columns.is_pair_mismatched sides.now) on.now }
{
    on.iter().any(|pair| is_pair_mismatched(sides, pair))
}

/// In the equalities of an ON.
pub(crate) fn in_on(sides: &Sides, on: &[RefPair]) -> Found
    ensures { result ≡ spec.in_on (sides.now, on.now) }
{
    Found {
        is_unknown: has_unknown_pair(sides, on),
        is_ambiguous: has_ambiguous_pair(sides, on),
        is_mismatched: has_mismatched_pair(sides, on),
        has_many_keys: MAX_KEYS < on.len(),
        ..Found::none()
    }
}

// In the ON of the source at that place.
fn in_on_at(alloc: Global, inputs: &[Input], at: usize, on: &[RefPair]) -> Result<Found, AllocError>
    requires { at < length inputs.now }
    ensures { IfOk result (λ f. (d : Entered) → f ≡ spec.in_on (sides_of (take at inputs.now) (get_or inputs.now at d), on.now)) }
{
    let sides = sides_of(alloc, &inputs[..at], &inputs[at])?;
    Ok(in_on(&sides, on))
}

// In the ONs of the sources after the first.
fn in_ons_from(alloc: Global, inputs: &[Input], more: &[Joined]) -> Result<Found, AllocError>
    requires { length more.now < length inputs.now }
    ensures { IfOk result (λ f. f ≡ any_of spec.in_on (ons_from (take 1 inputs.now) (drop 1 inputs.now) more.now)) }
{
    let mut found = Found::none();
    for (at, joined) in more.iter().enumerate() {
        found = found.or(in_on_at(alloc, inputs, at + 1, joined.on.as_slice())?);
    }
    Ok(found)
}

/// In the ONs of the sources, whose inputs are given. An error is want of memory.
pub(crate) fn in_ons(
    alloc: Global,
    inputs: &[Input],
    sources: &[Joined],
) -> Result<Found, AllocError>
    requires { length sources.now ≤ length inputs.now }
    ensures { IfOk result (λ f. f ≡ any_of spec.in_on (ons_of inputs.now sources.now)) }
{
    match sources {
        [] => Ok(Found::none()),
        [_, more @ ..] => in_ons_from(alloc, inputs, more),
    }
}
