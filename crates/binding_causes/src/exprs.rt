// What is found in the expressions of a SELECT.
ghost use Rattle.std.specs.Prelude.{◌≡◌, map, IfOk};
ghost use Rattle.binding_causes.specs.Asked.{expr_opt, args_of, items_of};
ghost use Rattle.binding_causes.specs.Columns.{takes_arg_opt};
ghost use Rattle.binding_causes.specs.Found as spec;
ghost use Rattle.binding_causes.specs.Found.{any_of};

use crate::found::Found;
use scope_expr::{Scope, agg_takes, bind, has_ambiguous, has_unknown, is_typed, takes_truth};
use script_trees::{Item, Items, RawAgg, RawExpr};
use std::alloc::{AllocError, Global};

fn in_expr(alloc: Global, names: &Scope, e: &RawExpr) -> Result<Found, AllocError>
    ensures { IfOk result (λ f. f ≡ spec.in_expr (names.now, e.now)) }
{
    let bound = bind(alloc, names, e)?;
    Ok(Found {
        is_unknown: has_unknown(names, e),
        is_ambiguous: has_ambiguous(names, e),
        is_mismatched: !is_typed(&bound),
        ..Found::none()
    })
}

/// In an expression that may be left out. An error is want of memory.
#[tactic(auto, using(crate::proofs::FoundLemmas::any_of_one))]
pub(crate) fn in_expr_opt(
    alloc: Global,
    names: &Scope,
    e: &Option<RawExpr>,
) -> Result<Found, AllocError>
    ensures { IfOk result (λ f. f ≡ any_of spec.in_expr (expr_opt names.now e.now)) }
{
    match e {
        Some(e) => in_expr(alloc, names, e),
        None => Ok(Found::none()),
    }
}

fn in_test(alloc: Global, names: &Scope, e: &RawExpr) -> Result<Found, AllocError>
    ensures { IfOk result (λ f. f ≡ spec.in_test (names.now, e.now)) }
{
    let bound = bind(alloc, names, e)?;
    Ok(Found::mismatch(!takes_truth(&bound)))
}

/// In an expression that is to be a truth value, or is left out. An error is want of memory.
#[tactic(auto, using(crate::proofs::FoundLemmas::any_of_one))]
pub(crate) fn in_test_opt(
    alloc: Global,
    names: &Scope,
    e: &Option<RawExpr>,
) -> Result<Found, AllocError>
    ensures { IfOk result (λ f. f ≡ any_of spec.in_test (expr_opt names.now e.now)) }
{
    match e {
        Some(e) => in_test(alloc, names, e),
        None => Ok(Found::none()),
    }
}

// The arguments of aggregates.
fn in_each_arg(alloc: Global, names: &Scope, aggs: &[RawAgg]) -> Result<Found, AllocError>
    ensures { IfOk result (λ f. f ≡ any_of (spec.in_arg names.now) aggs.now) }
{
    let mut found = Found::none();
    for agg in aggs {
        found = found.or(in_expr_opt(alloc, names, &agg.arg)?);
    }
    Ok(found)
}

/// In the arguments of aggregates. An error is want of memory.
pub(crate) fn in_args(alloc: Global, names: &Scope, aggs: &[RawAgg]) -> Result<Found, AllocError>
    ensures { IfOk result (λ f. f ≡ any_of spec.in_expr (args_of names.now aggs.now)) }
{
    in_each_arg(alloc, names, aggs)
}

fn takes_arg(alloc: Global, names: &Scope, agg: &RawAgg) -> Result<bool, AllocError>
    ensures { IfOk result (λ b. b ≡ takes_arg_opt agg.now names.now) }
{
    match &agg.arg {
        Some(arg) => {
            let bound = bind(alloc, names, arg)?;
            Ok(agg_takes(agg.kind, &bound))
        }
        None => Ok(true),
    }
}

fn in_each_agg(alloc: Global, names: &Scope, aggs: &[RawAgg]) -> Result<Found, AllocError>
    ensures { IfOk result (λ f. f ≡ any_of (spec.in_agg_of names.now) aggs.now) }
{
    let mut found = Found::none();
    for agg in aggs {
        found = found.or(Found::mismatch(!takes_arg(alloc, names, agg)?));
    }
    Ok(found)
}

/// In aggregates, besides their arguments. An error is want of memory.
pub(crate) fn in_aggs(alloc: Global, names: &Scope, aggs: &[RawAgg]) -> Result<Found, AllocError>
    ensures { IfOk result (λ f. f ≡ any_of spec.in_agg (map (λ a. (names.now, a)) aggs.now)) }
{
    in_each_agg(alloc, names, aggs)
}

fn in_each_item(alloc: Global, names: &Scope, items: &[Item]) -> Result<Found, AllocError>
    ensures { IfOk result (λ f. f ≡ any_of (spec.in_item names.now) items.now) }
{
    let mut found = Found::none();
    for item in items {
        found = found.or(in_expr(alloc, names, &item.expr)?);
    }
    Ok(found)
}

/// In the items that are written. An error is want of memory.
pub(crate) fn in_items(alloc: Global, names: &Scope, items: &Items) -> Result<Found, AllocError>
    ensures { IfOk result (λ f. f ≡ any_of spec.in_expr (items_of names.now items.now)) }
{
    match items {
        Items::All => Ok(Found::none()),
        Items::Listed(items) => in_each_item(alloc, names, items.as_slice()),
    }
}
