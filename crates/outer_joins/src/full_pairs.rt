// The combiner of FULL JOIN.
ghost use Rattle.outer_joins.specs.Combiners.{outer_told};
ghost use Rattle.outer_joins.specs.Lawful.{outer_told-lawful};
ghost use Rattle.outer_joins.specs.declared.side.Side.TheVariants.{Full};

use crate::rows::{push_given, takes};
use crate::side::Side;
use scope_value::{Cell, Row, Schema};
use std::alloc::{AllocError, Global};
use user_ops::Combiner;

/// A combiner that gives each left row followed by each right row, left order first, and where one side has no row each row of the
/// other beside nulls. Its two args are the numbers of left and right columns in decimal digits without leading zeros, and the output
/// has left's types and then right's.
#[derive(Clone, Copy)]
pub struct FullPairs;

impl Combiner for FullPairs {
    ghost told_combiner = { λ _. outer_told Full };

    ghost combiner_law = { λ _. outer_told-lawful Full };

    fn accepts(&self, left: &Schema, right: &Schema, output: &Schema, args: &[Cell]) -> bool {
        takes(left, right, output, args)
    }

    #[tactic(auto, using(crate::proofs::FitRules::fit_rules))]
    fn combine(
        &self,
        alloc: Global,
        args: &[Cell],
        left: &[Row],
        right: &[Row],
        out: &mut Vec<Row>,
    ) -> Result<(), AllocError> {
        push_given(alloc, Side::Full, args, left, right, out)
    }
}
