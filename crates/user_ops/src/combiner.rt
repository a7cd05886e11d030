// Operators of COMBINE: rows for the rows that two sides have at one key.
ghost use Rattle.std.specs.Prelude.{◌≡◌, ◌++◌, OnOk, OnErr};
ghost use Rattle.user_ops.specs.Lawful.{IsLawfulCombiner};
ghost use Rattle.user_ops.specs.Told.{ToldCombiner};
ghost use Rattle.user_ops.specs.Appends.{AddsSome, PairGivesFitting};

use scope_value::{Cell, Row, Schema};
use std::alloc::{AllocError, Global};

/// Gives rows for two groups of rows, either of which may be empty.
///
/// What it gives is a function of the args and the two lists of rows alone: it tells that function, and each call keeps
/// to it.
pub trait Combiner: Drop {
    // Which schemas and args it takes, and the rows that it gives for the rows of two groups.
    ghost told_combiner: { Self → ToldCombiner };

    // Its law: where the rows of each side fit that side's schema, the rows that it gives fit the output, for all schemas and
    // args that it takes.
    ghost combiner_law: { (c : Self) → IsLawfulCombiner (told_combiner c) };

    /// Whether it takes rows of `left` and of `right` with these args and gives rows of `output`.
    fn accepts(&self, left: &Schema, right: &Schema, output: &Schema, args: &[Cell]) -> bool
        ensures { result ≡ (told_combiner self.now).takes left.now right.now output.now args.now };

    /// Adds its rows for the two groups at the end of `out`. For schemas and args that it takes, they fit the output's
    /// schema where the rows of each side fit that side's. An error is want of memory, and `out` may then hold some
    /// first ones of them.
    fn combine(
        &self,
        alloc: Global,
        args: &[Cell],
        left: &[Row],
        right: &[Row],
        out: &mut Vec<Row>,
    ) -> Result<(), AllocError>
        ensures ok { OnOk result
            (out.new.items ≡ out.old.items ++ (told_combiner self.now).combines args.now left.now right.now) }
        ensures err { OnErr result
            (AddsSome
            out.old.items
            out.new.items
            ((told_combiner self.now).combines args.now left.now right.now)) }
        ensures fits { PairGivesFitting (told_combiner self.now) args.now left.now right.now };
}
