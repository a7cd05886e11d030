// What is seen of a command: what is found in it, and how many columns its tree numbers.
ghost use Rattle.std.specs.Prelude.{◌≡◌, ◌+◌, ℕ, List, length, IfOk};
ghost use Rattle.script_trees.specs.declared.command.Command.TheVariants as variant;
ghost use Rattle.user_ops.specs.Told.{Operators};
ghost use Rattle.names_in_sight.specs.Inputs.{before_of};
ghost use Rattle.names_in_sight.specs.Views as selects;
ghost use Rattle.binding_causes.specs.Found as spec;
ghost use Rattle.binding_causes.specs.Asked.{asked_by_combine, asked_by_reduce};
ghost use Rattle.binding_causes.specs.Limits as spec_limits;
ghost use Rattle.binding_causes.specs.Operators.{is_in, combiner_takes, reducer_takes};

use crate::asking::{in_combine, in_reduce, in_select, in_stream};
use crate::calls::{in_combiner, in_extractor, in_outer, in_outputter, in_processor, in_reducer};
use crate::counts::{origin_count, plus, result_count, select_count, source_count};
use crate::earlier::Earlier;
use crate::found::Found;
use crate::names::is_star_double;
use crate::ops::Knows;
use names_in_sight::{Input, View, heading_at};
use scope_value::{Cell, Column};
use script_trees::{Call, Command, RawKey, RawRef, RawStored, RefPair, Select, Source};
use sqlite_items::Items;
use std::alloc::{AllocError, Global};

/// What is found in a command, whether its `*` stands for two columns of one name, and how many columns its tree numbers.
#[derive(Clone, Copy)]
pub(crate) struct Seen {
    pub found: Found,
    pub is_star_double: bool,
    pub count: usize,
}

fn in_extract<O: Knows>(
    alloc: Global,
    ops: &O,
    at: &Earlier<'_>,
    call: &Call,
    cols: &[Column],
    stored: &Option<RawStored>,
) -> Result<Seen, AllocError>
    ensures { IfOk result (λ s. (stream : List ℕ) → s ≡ spec.seen_of (O.tells ops.now) at.now.all.now (before_of at.now.statements.now at.now.headings.now) at.now.counts.now (variant.Extract cols.now stream call.now stored.now)) }
{
    let asked = in_stream(alloc, cols, stored)?;
    let own = in_extractor(alloc, ops, call, cols)?;
    Ok(Seen {
        found: asked.or(own),
        is_star_double: false,
        count: cols.len(),
    })
}

fn in_view<O: Knows>(
    alloc: Global,
    ops: &O,
    at: &Earlier<'_>,
    select: &Select,
    view: &View,
) -> Result<Seen, AllocError>
    requires { view.now ≡ selects.view_of (O.tells ops.now) (before_of at.now.statements.now at.now.headings.now) select.now }
    ensures { IfOk result (λ s. s ≡ spec.seen_of (O.tells ops.now) at.now.all.now (before_of at.now.statements.now at.now.headings.now) at.now.counts.now (variant.Select select.now)) }
{
    let asked = in_select(alloc, view, select)?;
    let own = in_outer(
        alloc,
        ops,
        view.inputs.as_slice(),
        select.sources.as_slice(),
    )?;
    let count = select_count(alloc, ops, at, select, view)?;
    Ok(Seen {
        found: asked.or(own),
        is_star_double: is_star_double(&view.inner, &select.items),
        count,
    })
}

fn in_query<O: Knows>(
    alloc: Global,
    ops: &O,
    at: &Earlier<'_>,
    select: &Select,
) -> Result<Seen, AllocError>
    ensures { IfOk result (λ s. s ≡ spec.seen_of (O.tells ops.now) at.now.all.now (before_of at.now.statements.now at.now.headings.now) at.now.counts.now (variant.Select select.now)) }
{
    let view = ops.view_of(alloc, at, select)?;
    in_view(alloc, ops, at, select, &view)
}

fn process_found<O: Knows>(
    alloc: Global,
    ops: &O,
    at: &Earlier<'_>,
    source: &Option<Source>,
    call: &Call,
    cols: &[Column],
) -> Result<Found, AllocError>
    ensures { IfOk result (λ f. f ≡ spec.in_rest (O.tells ops.now) (before_of at.now.statements.now at.now.headings.now) (variant.Process source.now call.now cols.now)) }
{
    let input = ops.input_of_opt(alloc, at, source)?;
    in_processor(alloc, ops, call, &input.columns, cols)
}

// The columns of a source and those that are declared.
fn source_and<O: Knows>(
    alloc: Global,
    ops: &O,
    at: &Earlier<'_>,
    source: &Option<Source>,
    cols: &[Column],
) -> Result<usize, AllocError>
    ensures { IfOk result (λ n. n ≡ spec_limits.source_count (O.tells ops.now) at.now.all.now (before_of at.now.statements.now at.now.headings.now) at.now.counts.now source.now + length cols.now) }
{
    plus(source_count(alloc, ops, at, source)?, cols.len())
}

fn in_process<O: Knows>(
    alloc: Global,
    ops: &O,
    at: &Earlier<'_>,
    source: &Option<Source>,
    call: &Call,
    cols: &[Column],
) -> Result<Seen, AllocError>
    ensures { IfOk result (λ s. s ≡ spec.seen_of (O.tells ops.now) at.now.all.now (before_of at.now.statements.now at.now.headings.now) at.now.counts.now (variant.Process source.now call.now cols.now)) }
{
    let found = process_found(alloc, ops, at, source, call, cols)?;
    let count = source_and(alloc, ops, at, source, cols)?;
    Ok(Seen {
        found,
        is_star_double: false,
        count,
    })
}

// The source of a REDUCE, the keys that it is sorted by, and the keys of the groups.
type Grouped<'a> = (
    &'a Option<Source>,
    &'a Option<Items<RawKey>>,
    &'a Items<RawRef>,
);

fn groups_found_in<O: Knows>(
    alloc: Global,
    ops: &O,
    input: &Input,
    reduce: Grouped<'_>,
    call: &Call,
    cols: &[Column],
) -> Result<Found, AllocError>
    ensures { IfOk result (λ f. let told = O.tells ops.now in
        f ≡ spec.either (spec.in_asked (asked_by_reduce input.now reduce.entry.1.now reduce.entry.2.now))
        (spec.in_own_call (is_in told.reducer_names call.now.op) (reducer_takes told call.now.op call.now.args input.now.columns cols.now) call.now)) }
{
    let (_, presort, on) = reduce;
    let asked = in_reduce(alloc, input, on, presort)?;
    let own = in_reducer(alloc, ops, call, &input.columns, cols)?;
    Ok(asked.or(own))
}

fn groups_found<O: Knows>(
    alloc: Global,
    ops: &O,
    at: &Earlier<'_>,
    reduce: Grouped<'_>,
    call: &Call,
    cols: &[Column],
) -> Result<Found, AllocError>
    ensures { IfOk result (λ f. f ≡ spec.in_rest (O.tells ops.now) (before_of at.now.statements.now at.now.headings.now) (variant.Reduce reduce.entry.0.now reduce.entry.1.now reduce.entry.2.now call.now cols.now)) }
{
    let input = ops.input_of_opt(alloc, at, reduce.0)?;
    groups_found_in(alloc, ops, &input, reduce, call, cols)
}

fn in_groups<O: Knows>(
    alloc: Global,
    ops: &O,
    at: &Earlier<'_>,
    reduce: Grouped<'_>,
    call: &Call,
    cols: &[Column],
) -> Result<Seen, AllocError>
    ensures { IfOk result (λ s. s ≡ spec.seen_of (O.tells ops.now) at.now.all.now (before_of at.now.statements.now at.now.headings.now) at.now.counts.now (variant.Reduce reduce.entry.0.now reduce.entry.1.now reduce.entry.2.now call.now cols.now)) }
{
    let found = groups_found(alloc, ops, at, reduce, call, cols)?;
    let count = source_and(alloc, ops, at, reduce.0, cols)?;
    Ok(Seen {
        found,
        is_star_double: false,
        count,
    })
}

// A side of a COMBINE, and the keys that it is sorted by.
type Side<'a> = (&'a Source, &'a Option<Items<RawKey>>);

fn pair_found_in<O: Knows>(
    alloc: Global,
    ops: &O,
    left: (&Input, &Option<Items<RawKey>>),
    right: (&Input, &Option<Items<RawKey>>),
    on: &[RefPair],
    call: &Call,
    cols: &[Column],
) -> Result<Found, AllocError>
    ensures { IfOk result (λ f. let told = O.tells ops.now in
        f ≡ spec.either (spec.in_asked (asked_by_combine left.entry.0.now left.entry.1.now right.entry.0.now right.entry.1.now on.now))
        (spec.in_own_call (is_in told.combiner_names call.now.op) (combiner_takes told call.now.op call.now.args left.entry.0.now.columns right.entry.0.now.columns cols.now) call.now)) }
{
    let asked = in_combine(alloc, left, right, on)?;
    let own = in_combiner(alloc, ops, call, &left.0.columns, &right.0.columns, cols)?;
    Ok(asked.or(own))
}

fn pair_found<O: Knows>(
    alloc: Global,
    ops: &O,
    at: &Earlier<'_>,
    left: Side<'_>,
    right: Side<'_>,
    on: &[RefPair],
    call: &Call,
    cols: &[Column],
) -> Result<Found, AllocError>
    ensures { IfOk result (λ f. f ≡ spec.in_rest (O.tells ops.now) (before_of at.now.statements.now at.now.headings.now) (variant.Combine left.entry.0.now left.entry.1.now right.entry.0.now right.entry.1.now on.now call.now cols.now)) }
{
    let a = ops.input_of(alloc, at, left.0)?;
    let b = ops.input_of(alloc, at, right.0)?;
    pair_found_in(alloc, ops, (&a, left.1), (&b, right.1), on, call, cols)
}

fn pair_count<O: Knows>(
    alloc: Global,
    ops: &O,
    at: &Earlier<'_>,
    left: &Source,
    right: &Source,
    cols: &[Column],
) -> Result<usize, AllocError>
    ensures { IfOk result (λ n. let told = O.tells ops.now in
        let before = before_of at.now.statements.now at.now.headings.now in
        n ≡ spec_limits.origin_count told at.now.all.now before at.now.counts.now left.now.origin + spec_limits.origin_count told at.now.all.now before at.now.counts.now right.now.origin + length cols.now) }
{
    let left = origin_count(alloc, ops, at, &left.origin)?;
    let right = origin_count(alloc, ops, at, &right.origin)?;
    plus(plus(left, right)?, cols.len())
}

fn in_pair<O: Knows>(
    alloc: Global,
    ops: &O,
    at: &Earlier<'_>,
    left: Side<'_>,
    right: Side<'_>,
    on: &[RefPair],
    call: &Call,
    cols: &[Column],
) -> Result<Seen, AllocError>
    ensures { IfOk result (λ s. s ≡ spec.seen_of (O.tells ops.now) at.now.all.now (before_of at.now.statements.now at.now.headings.now) at.now.counts.now (variant.Combine left.entry.0.now left.entry.1.now right.entry.0.now right.entry.1.now on.now call.now cols.now)) }
{
    let found = pair_found(alloc, ops, at, left, right, on, call, cols)?;
    let count = pair_count(alloc, ops, at, left.0, right.0, cols)?;
    Ok(Seen {
        found,
        is_star_double: false,
        count,
    })
}

fn in_output(
    alloc: Global,
    at: &Earlier<'_>,
    source: &Option<Cell>,
    outputter: &Option<Cell>,
    stored: &Option<RawStored>,
) -> Result<Seen, AllocError>
    ensures { IfOk result (λ s. (told : Operators) (stream : List ℕ) → s ≡ spec.seen_of told at.now.all.now (before_of at.now.statements.now at.now.headings.now) at.now.counts.now (variant.Output source.now stream outputter.now stored.now)) }
{
    let heading = heading_at(at.statements, at.headings, source.as_ref());
    let asked = in_stream(alloc, heading, stored)?;
    Ok(Seen {
        found: asked.or(in_outputter(outputter)),
        is_star_double: false,
        count: result_count(at, source.as_ref()),
    })
}

/// What is seen of a command but the calls of extractors in place. An error is want of memory.
pub(crate) fn seen_in<O: Knows>(
    alloc: Global,
    ops: &O,
    at: &Earlier<'_>,
    command: &Command,
) -> Result<Seen, AllocError>
    ensures { IfOk result (λ s. s ≡ spec.seen_of (O.tells ops.now) at.now.all.now (before_of at.now.statements.now at.now.headings.now) at.now.counts.now command.now) }
{
    match command {
        Command::Extract {
            cols,
            call,
            stored,
            ..
        } => in_extract(alloc, ops, at, call, cols.as_slice(), stored),
        Command::Select(select) => in_query(alloc, ops, at, select),
        Command::Process { source, call, cols } => in_process(
            alloc,
            ops,
            at,
            source,
            call,
            cols.as_slice(),
        ),
        Command::Reduce {
            source,
            presort,
            on,
            call,
            cols,
        } => in_groups(alloc, ops, at, (source, presort, on), call, cols.as_slice()),
        Command::Combine {
            left,
            left_presort,
            right,
            right_presort,
            on,
            call,
            cols,
        } => in_pair(
            alloc,
            ops,
            at,
            (left, left_presort),
            (right, right_presort),
            on.as_slice(),
            call,
            cols.as_slice(),
        ),
        Command::Output {
            source,
            outputter,
            stored,
            ..
        } => in_output(alloc, at, source, outputter, stored),
    }
}
