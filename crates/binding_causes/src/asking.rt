// What is found in all that a command names of columns.
ghost use Rattle.std.specs.Prelude.{◌≡◌, ◌≤◌, ◌∷◌, ◌++◌, [], length, IfOk};
ghost use Rattle.names_in_sight.specs.Views as spec_selects;
ghost use Rattle.names_in_sight.specs.Sight as sight;
ghost use Rattle.binding_causes.specs.Asked as asked;
ghost use Rattle.binding_causes.specs.Found as spec;
ghost use Rattle.binding_causes.specs.Found.{any_of, either};

use crate::exprs::{in_aggs, in_args, in_expr_opt, in_items, in_test_opt};
use crate::found::Found;
use crate::keys::{in_keys_opt, in_refs, in_refs_opt, in_stored_opt};
use crate::ons::{in_on, in_ons};
use names_in_sight::{Input, View, sides_of, sight_of, sight_of_columns};
use scope_value::Column;
use script_trees::{RawKey, RawRef, RawStored, RefPair, Select};
use sqlite_items::Items;
use std::alloc::{AllocError, Global};
use std::slice;

fn in_exprs(alloc: Global, view: &View, s: &Select) -> Result<Found, AllocError>
    ensures { IfOk result (λ f. f ≡ any_of spec.in_expr (asked.asked_by_select s.now view.now).exprs) }
{
    let filter = in_expr_opt(alloc, &view.names, &s.filter)?;
    let args = in_args(alloc, &view.names, s.aggs.as_slice())?;
    let items = in_items(alloc, &view.inner, &s.items)?;
    let having = in_expr_opt(alloc, &view.result, &s.having)?;
    Ok(filter.or(args.or(items.or(having))))
}

fn in_tests(alloc: Global, view: &View, s: &Select) -> Result<Found, AllocError>
    ensures { IfOk result (λ f. f ≡ any_of spec.in_test (asked.asked_by_select s.now view.now).tests) }
{
    let filter = in_test_opt(alloc, &view.names, &s.filter)?;
    let having = in_test_opt(alloc, &view.result, &s.having)?;
    Ok(filter.or(having))
}

fn in_lists(alloc: Global, view: &View, s: &Select) -> Result<Found, AllocError>
    ensures { IfOk result (λ f. f ≡ any_of spec.in_keys (asked.asked_by_select s.now view.now).keys) }
{
    let group = in_refs_opt(alloc, &view.names, &s.group)?;
    let order = in_keys_opt(alloc, &view.result, &s.order)?;
    Ok(group.or(order))
}

fn in_values(alloc: Global, view: &View, s: &Select) -> Result<Found, AllocError>
    ensures { IfOk result (λ f. let a = asked.asked_by_select s.now view.now in
        f ≡ either (any_of spec.in_expr a.exprs) (either (any_of spec.in_test a.tests) (any_of spec.in_agg a.aggs))) }
{
    let exprs = in_exprs(alloc, view, s)?;
    let tests = in_tests(alloc, view, s)?;
    let aggs = in_aggs(alloc, &view.names, s.aggs.as_slice())?;
    Ok(exprs.or(tests.or(aggs)))
}

/// In a SELECT. An error is want of memory.
pub(crate) fn in_select(alloc: Global, view: &View, s: &Select) -> Result<Found, AllocError>
    requires { length s.now.sources ≤ length view.now.inputs }
    ensures { IfOk result (λ f. f ≡ spec.in_asked (asked.asked_by_select s.now view.now)) }
{
    let values = in_values(alloc, view, s)?;
    let ons = in_ons(alloc, view.inputs.as_slice(), s.sources.as_slice())?;
    let lists = in_lists(alloc, view, s)?;
    Ok(values.or(ons.or(lists)))
}

/// In the declaration of how a stream of these columns is stored. An error is want of memory.
pub(crate) fn in_stream(
    alloc: Global,
    columns: &[Column],
    stored: &Option<RawStored>,
) -> Result<Found, AllocError>
    ensures { IfOk result (λ f. f ≡ spec.in_asked (asked.keys_alone (asked.stored_opt (sight.sight_of_columns columns.now) stored.now))) }
{
    let names = sight_of_columns(alloc, columns)?;
    in_stored_opt(alloc, &names, stored)
}

/// In the keys of a REDUCE, and in those that its input is sorted by. An error is want of memory.
pub(crate) fn in_reduce(
    alloc: Global,
    input: &Input,
    on: &Items<RawRef>,
    presort: &Option<Items<RawKey>>,
) -> Result<Found, AllocError>
    ensures { IfOk result (λ f. f ≡ spec.in_asked (asked.asked_by_reduce input.now presort.now on.now)) }
{
    let names = sight_of(alloc, slice::from_ref(input))?;
    let on = in_refs(alloc, &names, on)?;
    let presort = in_keys_opt(alloc, &names, presort)?;
    Ok(on.or(presort))
}

fn in_presort(
    alloc: Global,
    input: &Input,
    presort: &Option<Items<RawKey>>,
) -> Result<Found, AllocError>
    ensures { IfOk result (λ f. f ≡ any_of spec.in_keys (asked.keys_opt (sight.sight_of (input.now ∷ [])) presort.now)) }
{
    let names = sight_of(alloc, slice::from_ref(input))?;
    in_keys_opt(alloc, &names, presort)
}

fn in_pairs(alloc: Global, left: &Input, right: &Input, on: &[RefPair]) -> Result<Found, AllocError>
    ensures { IfOk result (λ f. f ≡ spec.in_on (spec_selects.sides_of (left.now ∷ []) right.now, on.now)) }
{
    let sides = sides_of(alloc, slice::from_ref(left), right)?;
    Ok(in_on(&sides, on))
}

/// In the equalities of a COMBINE, and in the keys that its inputs are sorted by. An error is want of memory.
pub(crate) fn in_combine(
    alloc: Global,
    left: (&Input, &Option<Items<RawKey>>),
    right: (&Input, &Option<Items<RawKey>>),
    on: &[RefPair],
) -> Result<Found, AllocError>
    ensures { IfOk result (λ f. f ≡ spec.in_asked (asked.asked_by_combine left.entry.0.now left.entry.1.now right.entry.0.now right.entry.1.now on.now)) }
{
    let pairs = in_pairs(alloc, left.0, right.0, on)?;
    let left = in_presort(alloc, left.0, left.1)?;
    let right = in_presort(alloc, right.0, right.1)?;
    Ok(pairs.or(left.or(right)))
}
