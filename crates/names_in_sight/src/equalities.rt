// The equalities of an ON.
ghost use Rattle.std.specs.Prelude.{◌≡◌, IfOk};
ghost use Rattle.names_in_sight.specs.Views as spec;

use crate::input::Input;
use crate::sides::Sides;
use crate::sight::{place_of, sight_beyond, sight_of};
use scope_expr::is_unknown;
use script_trees::{RawRef, RefPair};
use sqlite_items::Items;
use std::alloc::{AllocError, Global};
use std::slice::from_ref;

/// The columns that an ON sees: `done` are the inputs to the left, and `input` is the one to the right. An error is want of memory.
pub fn sides_of(alloc: Global, done: &[Input], input: &Input) -> Result<Sides, AllocError>
    ensures { IfOk result (λ sides. sides ≡ spec.sides_of done.now input.now) }
{
    let left = sight_of(alloc, done)?;
    let right = sight_of(alloc, from_ref(input))?;
    let both = sight_beyond(alloc, done, input)?;
    Ok(Sides { left, right, both })
}

/// Whether the first column stands on the left and the second on the right.
pub fn are_sides(sides: &Sides, a: &RawRef, b: &RawRef) -> bool
    ensures { result ≡ spec.are_sides sides.now a.now b.now }
{
    !is_unknown(&sides.left, a) && !is_unknown(&sides.right, b)
}

/// The column of an equality that stands on the left, whichever is written first; the second where they don't stand on two sides.
pub fn left_of<'a>(sides: &Sides, pair: &'a RefPair) -> &'a RawRef
    ensures { result.now ≡ spec.left_of sides.now pair.now }
{
    if are_sides(sides, &pair.0, &pair.1) {
        &pair.0
    } else {
        &pair.1
    }
}

/// The column of an equality that stands on the right, whichever is written first; the first where they don't stand on two sides.
pub fn right_of<'a>(sides: &Sides, pair: &'a RefPair) -> &'a RawRef
    ensures { result.now ≡ spec.right_of sides.now pair.now }
{
    if are_sides(sides, &pair.0, &pair.1) {
        &pair.1
    } else {
        &pair.0
    }
}

fn pair_of(sides: &Sides, pair: &RefPair) -> (u32, u32)
    ensures { result ≡ spec.pair_of sides.now pair.now }
{
    (
        place_of(&sides.left, left_of(sides, pair)),
        place_of(&sides.right, right_of(sides, pair)),
    )
}

/// The places of the columns that an ON sets equal: one among the columns to the left, and one among those of the input to the right. An
/// error is want of memory.
pub fn pairs_of(
    alloc: Global,
    sides: &Sides,
    on: &[RefPair],
) -> Result<Items<(u32, u32)>, AllocError>
    ensures { IfOk result (λ pairs. pairs ≡ spec.pairs_of sides.now on.now) }
{
    let mut pairs = Items::new(alloc);
    for pair in on {
        pairs.push(pair_of(sides, pair))?;
    }
    Ok(pairs)
}
