// The second of two sources, as an inner or an outer join.
ghost use Rattle.std.specs.Prelude.{◌≡◌, [], ◌∷◌, ◌++◌, IfOk};
ghost use Rattle.names_in_sight.specs.Inputs.{before_of};
ghost use Rattle.names_in_sight.specs.Views as views_spec;
ghost use Rattle.name_resolution.specs.Queries as spec;

use crate::joins::next_joined;
use names_in_sight::Input;
use names_in_sight::carrying::beside;
use names_in_sight::copies::copied_columns;
use names_in_sight::finding::Finds;
use names_in_sight::operators::{outer_name, outer_side, width_args};
use outer_joins::Side;
use placed_trees::{Beside, Call, Joined};
use scope_value::{Column, Schema};
use script_trees::{Joined as RawJoined, Statement};
use sqlite_items::Items;
use std::alloc::{AllocError, Global};
use std::slice::from_ref;

// The columns of the left, and behind them those of the right.
fn both_columns(alloc: Global, left: &[Column], right: &[Column]) -> Result<Schema, AllocError>
    ensures { IfOk result (λ cs. cs ≡ left.now ++ right.now) }
{
    let mut columns = copied_columns(alloc, left)?;
    for column in right {
        columns.push(column.copy()?)?;
    }
    Ok(columns)
}

// The call of the combiner of an outer join.
fn outer_call<O: Finds>(
    alloc: Global,
    ops: &O,
    side: Side,
    left: &Input,
    right: &Input,
) -> Result<Call, AllocError>
    ensures { IfOk result (λ c. c ≡ spec.outer_call (O.tells ops.now) side left.now right.now) }
{
    let op = ops.combiner_op(outer_name(side))?;
    let args = width_args(alloc, left.columns.len(), right.columns.len())?;
    let output = both_columns(alloc, left.columns.as_slice(), right.columns.as_slice())?;
    Ok(Call { op, args, output })
}

fn one_join(alloc: Global, join: Joined) -> Result<Beside, AllocError>
    ensures { IfOk result (λ b. b ≡ Beside.Inners (join ∷ [])) }
{
    let mut joins = Items::new(alloc);
    joins.push(join)?;
    Ok(Beside::Inners(joins))
}

// The second of two sources by an outer join.
fn outer_beside<O: Finds>(
    alloc: Global,
    ops: &O,
    side: Side,
    left: &Input,
    input: &Input,
    join: Joined,
) -> Result<Beside, AllocError>
    ensures { IfOk result (λ b. b ≡ Beside.Outer side (spec.outer_call (O.tells ops.now) side left.now input.now) join) }
{
    let (join, call) = beside(join, outer_call(alloc, ops, side, left, input))?;
    Ok(Beside::Outer(side, call, join))
}

/// The second of two sources, where the first reads this input. An error is want of memory.
pub(crate) fn beside_one<O: Finds>(
    alloc: Global,
    ops: &O,
    statements: &[Statement],
    headings: &[Schema],
    left: &Input,
    joined: &RawJoined,
) -> Result<Beside, AllocError>
    ensures { IfOk result (λ b. b ≡ spec.beside_one (O.tells ops.now) (before_of statements.now headings.now) left.now joined.now (views_spec.outer_side joined.now.side)) }
{
    let (join, input) = next_joined(alloc, ops, statements, headings, from_ref(left), joined)?;
    match outer_side(joined.side) {
        None => one_join(alloc, join),
        Some(side) => outer_beside(alloc, ops, side, left, &input, join),
    }
}
