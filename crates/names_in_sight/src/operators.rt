// Operators by their names.
ghost use Rattle.std.specs.Prelude.{◌≡◌, decimal, IfOk};
ghost use Rattle.outer_joins.specs.Laws as joins;
ghost use Rattle.names_in_sight.specs.Operators as spec;
ghost use Rattle.names_in_sight.specs.Views.{outer_side};

use itoa::Buffer;
use outer_joins::Side;
use scope_value::Cell;
use script_trees::JoinSide;
use sqlite_items::Items;
use std::alloc::{AllocError, Global};

/// Which side an outer join keeps; None of an inner join.
pub fn outer_side(side: JoinSide) -> Option<Side>
    ensures { result ≡ outer_side side }
{
    match side {
        JoinSide::Inner => None,
        JoinSide::Left => Some(Side::Left),
        JoinSide::Right => Some(Side::Right),
        JoinSide::Full => Some(Side::Full),
    }
}

/// The name of the combiner of an outer join.
pub fn outer_name(side: Side) -> &'static [u8]
    ensures { result.now ≡ spec.outer_name side }
{
    match side {
        Side::Left => b"LeftPairs",
        Side::Right => b"RightPairs",
        Side::Full => b"FullPairs",
    }
}

/// The args of the combiner of an outer join: how many columns are on the left and on the right. An error is want of memory.
pub fn width_args(alloc: Global, left: usize, right: usize) -> Result<Items<Cell>, AllocError>
    ensures { IfOk result (λ args. args ≡ joins.width_args left right) }
{
    let mut args = Items::new(alloc);
    args.push(decimal_cell(alloc, left)?)?;
    args.push(decimal_cell(alloc, right)?)?;
    Ok(args)
}

// The number in decimal digits.
fn decimal_cell(alloc: Global, number: usize) -> Result<Cell, AllocError>
    ensures { IfOk result (λ c. c ≡ decimal number) }
{
    let mut buffer = Buffer::new();
    Cell::from_slice(alloc, buffer.format(number).as_bytes())
}

/// Whether an outputter of that name is there; without a name the one of commas is meant.
pub fn is_outputter(name: &Option<Cell>) -> bool
    ensures { result ≡ spec.is_outputter name.now }
{
    match name {
        None => true,
        Some(name) => name.as_slice() == b"CommaOutputter".as_slice()
            || name.as_slice() == b"TabOutputter".as_slice(),
    }
}

/// The byte between the fields that an outputter writes: a tab of the one of tabs, and else a comma.
pub fn delimiter_of(name: &Option<Cell>) -> u8
    ensures { result ≡ spec.delimiter_of name.now }
{
    match name {
        Some(name) if name.as_slice() == b"TabOutputter".as_slice() => b'\t',
        _ => b',',
    }
}
