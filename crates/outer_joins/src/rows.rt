// What the three combiners take and give, by the side that they keep.
ghost use Rattle.std.specs.Prelude.{◌≡◌, ◌++◌, ◌&&◌, length, flat_map, IfOk, OnOk, OnErr};
ghost use Rattle.user_ops.specs.Appends.{AddsSome};
ghost use Rattle.scope_shipped.specs.InnerPairs.{pairs_of};
ghost use Rattle.scope_shipped.specs.SameTypes.{same_types};
ghost use Rattle.outer_joins.specs.OuterPairs.{nulls, left_alone, right_alone, outer_pairs};
ghost use Rattle.outer_joins.specs.Widths.{widths, are_widths};
ghost use Rattle.outer_joins.specs.Combiners.{outer_given};

use crate::side::Side;
use crate::widths::{has_widths, widths_of};
use scope_shipped::InnerPairs;
use scope_value::{Cell, Row, Schema, Value};
use std::alloc::{AllocError, Global};
use std::slice;
use user_ops::Combiner;

/// Whether the args are the numbers of left and right columns, and the output has left's types and then right's.
pub(crate) fn takes(left: &Schema, right: &Schema, output: &Schema, args: &[Cell]) -> bool
    ensures { result ≡ (are_widths (length left.now) (length right.now) (widths args.now) && same_types (left.now ++ right.now) output.now) }
{
    has_widths(args, left.len(), right.len()) && InnerPairs.accepts(left, right, output, &[])
}

// A row of nulls.
fn null_row(alloc: Global, width: usize) -> Result<Row, AllocError>
    ensures { IfOk result (λ row. row ≡ nulls width) }
{
    let values = vec![in alloc; Value::Null; width]?;
    Ok(Row::from_vec(values))
}

// Adds each left row followed by each right row, left order first.
fn push_each_pair(
    alloc: Global,
    left: &[Row],
    right: &[Row],
    out: &mut Vec<Row>,
) -> Result<(), AllocError>
    ensures ok { OnOk result (out.new.items ≡ out.old.items ++ flat_map (pairs_of right.now) left.now) }
    ensures err { OnErr result (AddsSome out.old.items out.new.items (flat_map (pairs_of right.now) left.now)) }
{
    InnerPairs.combine(alloc, &[], left, right, out)
}

// Adds the left rows, each followed by nulls, where that side is kept.
fn push_left_alone(
    alloc: Global,
    side: Side,
    left: &[Row],
    width: usize,
    out: &mut Vec<Row>,
) -> Result<(), AllocError>
    ensures ok { OnOk result (out.new.items ≡ out.old.items ++ left_alone side width left.now) }
    ensures err { OnErr result (AddsSome out.old.items out.new.items (left_alone side width left.now)) }
{
    if !side.keeps_left() {
        return Ok(());
    }
    let absent = null_row(alloc, width)?;
    push_each_pair(alloc, left, slice::from_ref(&absent), out)
}

// Adds the right rows, each after nulls, where that side is kept.
fn push_right_alone(
    alloc: Global,
    side: Side,
    width: usize,
    right: &[Row],
    out: &mut Vec<Row>,
) -> Result<(), AllocError>
    ensures ok { OnOk result (out.new.items ≡ out.old.items ++ right_alone side width right.now) }
    ensures err { OnErr result (AddsSome out.old.items out.new.items (right_alone side width right.now)) }
{
    if !side.keeps_right() {
        return Ok(());
    }
    let absent = null_row(alloc, width)?;
    push_each_pair(alloc, slice::from_ref(&absent), right, out)
}

// Adds the rows of an outer join at one key.
fn push_outer_pairs(
    alloc: Global,
    side: Side,
    widths: (usize, usize),
    left: &[Row],
    right: &[Row],
    out: &mut Vec<Row>,
) -> Result<(), AllocError>
    ensures ok { OnOk result (out.new.items ≡ out.old.items ++ outer_pairs side widths.0 widths.1 left.now right.now) }
    ensures err { OnErr result (AddsSome out.old.items out.new.items (outer_pairs side widths.0 widths.1 left.now right.now)) }
{
    if left.is_empty() {
        push_right_alone(alloc, side, widths.0, right, out)
    } else if right.is_empty() {
        push_left_alone(alloc, side, left, widths.1, out)
    } else {
        push_each_pair(alloc, left, right, out)
    }
}

/// Adds what the combiner of this side gives. Where the args are no two numbers, that is nothing.
pub(crate) fn push_given(
    alloc: Global,
    side: Side,
    args: &[Cell],
    left: &[Row],
    right: &[Row],
    out: &mut Vec<Row>,
) -> Result<(), AllocError>
    ensures ok { OnOk result (out.new.items ≡ out.old.items ++ outer_given side (widths args.now) left.now right.now) }
    ensures err { OnErr result (AddsSome out.old.items out.new.items (outer_given side (widths args.now) left.now right.now)) }
{
    match widths_of(args) {
        Some(widths) => push_outer_pairs(alloc, side, widths, left, right, out),
        None => Ok(()),
    }
}
