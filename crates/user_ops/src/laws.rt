// What holds of every set of operators, before any call.
ghost use Rattle.user_ops.specs.Lawful.{AreLawful};
ghost use Rattle.user_ops.specs.Widths.{AreFittingRowsAsLong};

use crate::op_set::{OpSet, Tells};

/// Each operator of a set keeps the law of its trait.
pub fn lawful_law(ops: &OpSet)
    ensures { AreLawful (⟦<OpSet as Tells>⟧.tells ops.now) }
{
    lawful_over(ops)
}

fn lawful_over<O: Tells>(ops: &O)
    ensures { AreLawful (O.tells ops.now) }
{}

/// A row that fits a schema has one value for each column.
pub fn width_law()
    ensures { AreFittingRowsAsLong }
{}
