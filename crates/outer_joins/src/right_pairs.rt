// The combiner of RIGHT JOIN.
ghost use Rattle.outer_joins.specs.Combiners.{outer_told};
ghost use Rattle.outer_joins.specs.Lawful.{outer_told-lawful};
ghost use Rattle.outer_joins.specs.declared.side.Side.TheVariants.{Right};

use crate::rows::{push_given, takes};
use crate::side::Side;
use scope_value::{Cell, Row, Schema};
use std::alloc::{AllocError, Global};
use user_ops::Combiner;

/// A combiner that gives each left row followed by each right row, left order first, and where there is no left row each right row
/// after nulls. Its two args are the numbers of left and right columns in decimal digits without leading zeros, and the output has
/// left's types and then right's.
#[derive(Clone, Copy)]
pub struct RightPairs;

impl Combiner for RightPairs {
    ghost told_combiner = { λ _. outer_told Right };

    ghost combiner_law = { λ _. outer_told-lawful Right };

    fn accepts(&self, left: &Schema, right: &Schema, output: &Schema, args: &[Cell]) -> bool {
        takes(left, right, output, args)
    }

    #[tactic(auto, using(crate::proofs::FitRules::fit_rules))]
    fn combine(
        &self,
        alloc: Global,
        args: &[Cell],
        left: &[Row],
        right: &[Row],
        out: &mut Vec<Row>,
    ) -> Result<(), AllocError> {
        push_given(alloc, Side::Right, args, left, right, out)
    }
}
