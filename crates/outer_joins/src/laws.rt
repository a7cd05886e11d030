// What the combiners of outer joins tell.
ghost use Rattle.std.specs.Prelude.{◌≡◌};
ghost use Rattle.outer_joins.specs.Combiners.{outer_told};
ghost use Rattle.outer_joins.specs.Laws.{TakesJustWidths, GivesOuterPairs};

use crate::full_pairs::FullPairs;
use crate::left_pairs::LeftPairs;
use crate::right_pairs::RightPairs;
use crate::side::Side;
use user_ops::Combiner;

/// What each of the three tells: exactly the predicate and the meaning of its side.
pub fn combiners_law(left: &LeftPairs, right: &RightPairs, full: &FullPairs)
    ensures keeps_left { ⟦<LeftPairs as Combiner>⟧.told_combiner left.now ≡ outer_told Side.Left }
    ensures keeps_right { ⟦<RightPairs as Combiner>⟧.told_combiner right.now ≡ outer_told Side.Right }
    ensures keeps_both { ⟦<FullPairs as Combiner>⟧.told_combiner full.now ≡ outer_told Side.Full }
{}

/// Which args are taken: the numbers of left and right columns in decimal digits without leading zeros, and no others.
pub fn widths_law()
    ensures { TakesJustWidths }
{}

/// What is given with such args: the pairs of two groups, and the rows of a group beside nulls where the other is empty and its side is kept.
pub fn meaning_law()
    ensures { GivesOuterPairs }
{}
