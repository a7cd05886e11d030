// How many columns the tree of a command numbers, and which results are shared.
ghost use Rattle.std.specs.Prelude.{◌≡◌, ◌+◌, length, slice_get, IfOk};
ghost use Rattle.std.specs.Option.{option_copied, option_map_or};
ghost use Rattle.std.specs.List.{flat_map, sum_by};
ghost use Rattle.names_in_sight.specs.Inputs.{before_of, columns_of_all};
ghost use Rattle.binding_causes.specs.Limits as spec;

use crate::calls::side_of;
use crate::earlier::Earlier;
use crate::ops::Knows;
use names_in_sight::{Input, View, heading_at, input_at};
use scope_value::Cell;
use script_trees::{Joined, Origin, Select, Source};
use std::alloc::{AllocError, Global};

// ---- shared results

fn is_shared(all: &[usize], number: usize) -> bool
    ensures { result ≡ spec.is_shared all.now number }
{
    2 <= all.iter().filter(|m| **m == number).count()
}

/// How many of the first results are mentioned twice. Each is counted among all mentions: callers ask it of at most 64.
pub(crate) fn shared_among(all: &[usize], results: usize) -> usize
    ensures { result ≡ spec.shared_among all.now results }
{
    (0..results)
        .filter(|number| is_shared(all, *number))
        .count()
}

// ---- columns

/// The sum; an error where it has no 64 bits, and nothing has so many columns.
pub(crate) fn plus(a: usize, b: usize) -> Result<usize, AllocError>
    ensures { IfOk result (λ n. n ≡ a + b) }
{
    match a.checked_add(b) {
        Some(sum) => Ok(sum),
        None => Err(AllocError),
    }
}

fn count_at(counts: &[usize], number: usize) -> usize
    ensures { result ≡ option_map_or (λ n. n) (slice_get counts.now number) 0 }
{
    match counts.get(number) {
        Some(count) => *count,
        None => 0,
    }
}

/// Of a result that is read.
pub(crate) fn result_count(at: &Earlier<'_>, name: Option<&Cell>) -> usize
    ensures { result ≡ spec.result_count at.now.all.now (before_of at.now.statements.now at.now.headings.now) at.now.counts.now (option_copied name.entry) }
{
    match input_at(at.statements, name) {
        Some(number) => {
            if is_shared(at.all, number) {
                heading_at(at.statements, at.headings, name).len()
            } else {
                count_at(at.counts, number)
            }
        }
        None => 0,
    }
}

/// Of what a source reads. An error is want of memory.
pub(crate) fn origin_count<O: Knows>(
    alloc: Global,
    ops: &O,
    at: &Earlier<'_>,
    origin: &Origin,
) -> Result<usize, AllocError>
    ensures { IfOk result (λ n. n ≡ spec.origin_count (O.tells ops.now) at.now.all.now (before_of at.now.statements.now at.now.headings.now) at.now.counts.now origin.now) }
{
    match origin {
        Origin::Named(name) => Ok(result_count(at, Some(name))),
        Origin::Stream(_, call) => ops.inline_width(alloc, &call.op),
    }
}

/// Of a source that may be left out. An error is want of memory.
pub(crate) fn source_count<O: Knows>(
    alloc: Global,
    ops: &O,
    at: &Earlier<'_>,
    source: &Option<Source>,
) -> Result<usize, AllocError>
    ensures { IfOk result (λ n. n ≡ spec.source_count (O.tells ops.now) at.now.all.now (before_of at.now.statements.now at.now.headings.now) at.now.counts.now source.now) }
{
    match source {
        Some(source) => origin_count(alloc, ops, at, &source.origin),
        None => Ok(result_count(at, None)),
    }
}

fn sources_count<O: Knows>(
    alloc: Global,
    ops: &O,
    at: &Earlier<'_>,
    sources: &[Joined],
) -> Result<usize, AllocError>
    ensures { IfOk result (λ n. n ≡ sum_by (λ j. spec.origin_count (O.tells ops.now) at.now.all.now (before_of at.now.statements.now at.now.headings.now) at.now.counts.now j.source.origin) sources.now) }
{
    let mut total = 0;
    for joined in sources {
        total = plus(total, origin_count(alloc, ops, at, &joined.source.origin)?)?;
    }
    Ok(total)
}

fn from_count<O: Knows>(
    alloc: Global,
    ops: &O,
    at: &Earlier<'_>,
    sources: &[Joined],
) -> Result<usize, AllocError>
    ensures { IfOk result (λ n. n ≡ spec.from_count (O.tells ops.now) at.now.all.now (before_of at.now.statements.now at.now.headings.now) at.now.counts.now sources.now) }
{
    match sources {
        [] => Ok(result_count(at, None)),
        [_, ..] => sources_count(alloc, ops, at, sources),
    }
}

fn width_of_all(inputs: &[Input]) -> Result<usize, AllocError>
    ensures { IfOk result (λ n. n ≡ length (columns_of_all inputs.now)) }
{
    let mut total = 0;
    for input in inputs {
        total = plus(total, input.columns.len())?;
    }
    Ok(total)
}

fn outer_count(inputs: &[Input], sources: &[Joined]) -> Result<usize, AllocError>
    ensures { IfOk result (λ n. n ≡ spec.outer_count inputs.now sources.now) }
{
    match side_of(sources) {
        Some(_) => width_of_all(inputs),
        None => Ok(0),
    }
}

/// Of a SELECT. An error is want of memory.
pub(crate) fn select_count<O: Knows>(
    alloc: Global,
    ops: &O,
    at: &Earlier<'_>,
    select: &Select,
    view: &View,
) -> Result<usize, AllocError>
    ensures { IfOk result (λ n. n ≡ spec.select_count (O.tells ops.now) at.now.all.now (before_of at.now.statements.now at.now.headings.now) at.now.counts.now select.now view.now) }
{
    let sources = from_count(alloc, ops, at, select.sources.as_slice())?;
    let outer = outer_count(view.inputs.as_slice(), select.sources.as_slice())?;
    plus(
        plus(plus(sources, outer)?, select.aggs.len())?,
        view.outputs.len(),
    )
}
