// What user operators give: row by row, group by group, and group beside group.
ghost use Rattle.std.specs.Prelude.{◌≡◌, ◌++◌, ◌<◌, length, map, flat_map, IfOk, OnOk};
ghost use Rattle.user_ops.specs.Told.{processes_at};
ghost use Rattle.structural_props.specs.Rows.{key_of};
ghost use Rattle.logical_trees.specs.Rows.{with_key};
ghost use Rattle.list_lemmas.specs.Distinct.{distinct};
ghost use Rattle.logical_trees.specs.Rows as spec;
ghost use Rattle.plain_meaning.specs.Plain.{group_at, reduced_by, combined_by};

use crate::keyed::{distinct_rows, keys_among, keys_of, rows_with_key};
use crate::orders::{order_of, rows_in_order};
use col_sets::{ColId, ColSet, KeyOrders};
use logical_trees::CallArgs;
use scope_value::{Cell, Row};
use std::alloc::{AllocError, Global};
use user_ops::{Combiner, OpSet, Processor, Reducer, Tells};

/// The rows of a child over its columns, and the order in which an operator is handed those of one key.
#[derive(Drop)]
pub(crate) struct Input<'a> {
    pub cols: ColSet,
    pub presort: &'a Option<KeyOrders>,
    pub rows: &'a [Row],
}

// One side of a combiner: the columns of its key and its rows.
#[derive(Clone, Copy)]
struct Side<'a, 'b> {
    on: &'a [ColId],
    input: &'a Input<'b>,
}

/// What the processor gives for each row.
pub(crate) fn processed_rows(
    alloc: Global,
    ops: &OpSet,
    call: &CallArgs,
    rows: &[Row],
) -> Result<Vec<Row>, AllocError>
    requires { call.now.op < length (⟦<OpSet as Tells>⟧.tells ops.now).processors }
    ensures { IfOk result (λ given. given.items ≡ flat_map (processes_at (⟦<OpSet as Tells>⟧.tells ops.now) call.now.op call.now.args) rows.now) }
{
    process_boxed(
        alloc,
        ops.processor_at(call.op as usize),
        call.args.as_slice(),
        rows,
    )
}

fn process_boxed(
    alloc: Global,
    op: &Box<dyn Processor>,
    args: &[Cell],
    rows: &[Row],
) -> Result<Vec<Row>, AllocError>
    ensures { IfOk result (λ given. given.items ≡ flat_map ((told_processor op.now).processes args.now) rows.now) }
{
    process_each(alloc, &**op, args, rows)
}

fn process_each(
    alloc: Global,
    op: &dyn Processor,
    args: &[Cell],
    rows: &[Row],
) -> Result<Vec<Row>, AllocError>
    ensures { IfOk result (λ given. given.items ≡ flat_map ((told_processor op.now).processes args.now) rows.now) }
{
    let mut given = Vec::new(alloc);
    for row in rows {
        op.process(alloc, args, row, &mut given)?;
    }
    Ok(given)
}

/// What the reducer gives for the rows of each key, in the order of the presort.
pub(crate) fn reduced_rows(
    alloc: Global,
    ops: &OpSet,
    call: &CallArgs,
    on: &[ColId],
    input: &Input<'_>,
) -> Result<Vec<Row>, AllocError>
    requires { call.now.op < length (⟦<OpSet as Tells>⟧.tells ops.now).reducers }
    ensures { IfOk result (λ given.
        given.items
        ≡ spec.reduced (⟦<OpSet as Tells>⟧.tells ops.now) input.now.cols call.now on.now input.now.presort.now input.now.rows.now) }
{
    reduce_boxed(
        alloc,
        ops.reducer_at(call.op as usize),
        call.args.as_slice(),
        on,
        input,
    )
}

fn reduce_boxed(
    alloc: Global,
    op: &Box<dyn Reducer>,
    args: &[Cell],
    on: &[ColId],
    input: &Input<'_>,
) -> Result<Vec<Row>, AllocError>
    ensures { IfOk result (λ given.
        given.items
        ≡ reduced_by ((told_reducer op.now).reduces args.now) input.now.cols on.now input.now.presort.now input.now.rows.now) }
{
    reduce_each(alloc, &**op, args, on, input)
}

fn reduce_each(
    alloc: Global,
    op: &dyn Reducer,
    args: &[Cell],
    on: &[ColId],
    input: &Input<'_>,
) -> Result<Vec<Row>, AllocError>
    ensures { IfOk result (λ given.
        given.items
        ≡ reduced_by ((told_reducer op.now).reduces args.now) input.now.cols on.now input.now.presort.now input.now.rows.now) }
{
    let keys = keys_among(alloc, input.cols, on, input.rows)?;
    let mut given = Vec::new(alloc);
    for k in keys.as_slice() {
        reduce_key(alloc, op, args, on, input, k, &mut given)?;
    }
    Ok(given)
}

// Adds what the reducer gives for the rows of a key.
fn reduce_key(
    alloc: Global,
    op: &dyn Reducer,
    args: &[Cell],
    on: &[ColId],
    input: &Input<'_>,
    k: &Row,
    given: &mut Vec<Row>,
) -> Result<(), AllocError>
    ensures { OnOk result (given.new.items
        ≡ given.old.items ++ (told_reducer op.now).reduces args.now (group_at input.now.cols on.now input.now.presort.now input.now.rows.now k.now)) }
{
    let group = group_in_order(alloc, on, input, k)?;
    op.reduce(alloc, args, group.as_slice(), given)
}

// The rows of a key, in the order of the presort.
fn group_in_order(
    alloc: Global,
    on: &[ColId],
    input: &Input<'_>,
    k: &Row,
) -> Result<Vec<Row>, AllocError>
    ensures { IfOk result (λ group.
        group.items
        ≡ spec.in_order input.now.cols (spec.order_of input.now.presort.now) (with_key input.now.cols on.now k.now input.now.rows.now)) }
{
    let group = rows_with_key(alloc, input.cols, on, k, input.rows)?;
    let order = order_of(input.presort);
    rows_in_order(alloc, input.cols, order.as_slice(), group.as_slice())
}

/// What the combiner gives for the rows of each key on both sides, each side in the order of its presort.
pub(crate) fn combined_rows(
    alloc: Global,
    ops: &OpSet,
    call: &CallArgs,
    on: &[(ColId, ColId)],
    left: &Input<'_>,
    right: &Input<'_>,
) -> Result<Vec<Row>, AllocError>
    requires { call.now.op < length (⟦<OpSet as Tells>⟧.tells ops.now).combiners }
    ensures { IfOk result (λ given.
        given.items
        ≡ spec.combined (⟦<OpSet as Tells>⟧.tells ops.now) left.now.cols right.now.cols call.now on.now left.now.presort.now right.now.presort.now left.now.rows.now right.now.rows.now) }
{
    combine_boxed(
        alloc,
        ops.combiner_at(call.op as usize),
        call.args.as_slice(),
        on,
        left,
        right,
    )
}

fn combine_boxed(
    alloc: Global,
    op: &Box<dyn Combiner>,
    args: &[Cell],
    on: &[(ColId, ColId)],
    left: &Input<'_>,
    right: &Input<'_>,
) -> Result<Vec<Row>, AllocError>
    ensures { IfOk result (λ given.
        given.items
        ≡ combined_by ((told_combiner op.now).combines args.now) left.now.cols right.now.cols on.now left.now.presort.now right.now.presort.now left.now.rows.now right.now.rows.now) }
{
    combine_each(alloc, &**op, args, on, left, right)
}

fn combine_each(
    alloc: Global,
    op: &dyn Combiner,
    args: &[Cell],
    on: &[(ColId, ColId)],
    left: &Input<'_>,
    right: &Input<'_>,
) -> Result<Vec<Row>, AllocError>
    ensures { IfOk result (λ given.
        given.items
        ≡ combined_by ((told_combiner op.now).combines args.now) left.now.cols right.now.cols on.now left.now.presort.now right.now.presort.now left.now.rows.now right.now.rows.now) }
{
    let mine = left_columns(alloc, on)?;
    let other = right_columns(alloc, on)?;
    let keys = keys_of_both(alloc, mine.as_slice(), other.as_slice(), left, right)?;
    let mut given = Vec::new(alloc);
    for k in keys.as_slice() {
        let before = Side {
            on: mine.as_slice(),
            input: &*left,
        };
        let beside = Side {
            on: other.as_slice(),
            input: &*right,
        };
        combine_key(alloc, op, args, before, beside, k, &mut given)?;
    }
    Ok(given)
}

// Adds what the combiner gives for the rows of a key on both sides.
fn combine_key(
    alloc: Global,
    op: &dyn Combiner,
    args: &[Cell],
    left: Side<'_, '_>,
    right: Side<'_, '_>,
    k: &Row,
    given: &mut Vec<Row>,
) -> Result<(), AllocError>
    ensures { OnOk result (given.new.items
        ≡ given.old.items ++ (told_combiner op.now).combines args.now
        (group_at left.entry.input.now.cols left.entry.on.now left.entry.input.now.presort.now left.entry.input.now.rows.now k.now)
        (group_at right.entry.input.now.cols right.entry.on.now right.entry.input.now.presort.now right.entry.input.now.rows.now k.now)) }
{
    let before = group_in_order(alloc, left.on, left.input, k)?;
    let beside = group_in_order(alloc, right.on, right.input, k)?;
    op.combine(alloc, args, before.as_slice(), beside.as_slice(), given)
}

// The columns of the pairs on the left.
fn left_columns(alloc: Global, on: &[(ColId, ColId)]) -> Result<Vec<ColId>, AllocError>
    ensures { IfOk result (λ columns. columns.items ≡ spec.left_columns on.now) }
{
    on.iter().map(|p| p.0).collect(alloc)
}

// The columns of the pairs on the right.
fn right_columns(alloc: Global, on: &[(ColId, ColId)]) -> Result<Vec<ColId>, AllocError>
    ensures { IfOk result (λ columns. columns.items ≡ spec.right_columns on.now) }
{
    on.iter().map(|p| p.1).collect(alloc)
}

// The keys that stand on at least one side.
fn keys_of_both(
    alloc: Global,
    mine: &[ColId],
    other: &[ColId],
    left: &Input<'_>,
    right: &Input<'_>,
) -> Result<Vec<Row>, AllocError>
    ensures { IfOk result (λ keys.
        keys.items
        ≡ distinct (map (key_of left.now.cols mine.now) left.now.rows.now ++ map (key_of right.now.cols other.now) right.now.rows.now)) }
{
    let mut keys = keys_of(alloc, left.cols, mine, left.rows)?;
    let mut more = keys_of(alloc, right.cols, other, right.rows)?;
    keys.append(&mut more)?;
    distinct_rows(alloc, keys.as_slice())
}
