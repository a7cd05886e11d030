// Operators of REDUCE: rows for the rows of one group.
ghost use Rattle.std.specs.Prelude.{◌≡◌, ◌++◌, OnOk, OnErr};
ghost use Rattle.user_ops.specs.Lawful.{IsLawfulReducer};
ghost use Rattle.user_ops.specs.Told.{ToldReducer};
ghost use Rattle.user_ops.specs.Appends.{AddsSome, GroupGivesFitting};

use scope_value::{Cell, Row, Schema};
use std::alloc::{AllocError, Global};

/// Gives rows for the rows of one group.
///
/// What it gives is a function of the args and the list of rows alone: it tells that function, and each call keeps to it.
pub trait Reducer: Drop {
    // Which schemas and args it takes, and the rows that it gives for the rows of a group.
    ghost told_reducer: { Self → ToldReducer };

    // Its law: where the rows of a group fit their schema, the rows that it gives fit the output, for all schemas and args
    // that it takes.
    ghost reducer_law: { (r : Self) → IsLawfulReducer (told_reducer r) };

    /// Whether it takes rows of `input` with these args and gives rows of `output`.
    fn accepts(&self, input: &Schema, output: &Schema, args: &[Cell]) -> bool
        ensures { result ≡ (told_reducer self.now).takes input.now output.now args.now };

    /// Adds its rows for `group` at the end of `out`. For schemas and args that it takes, they fit the output's schema
    /// where each row of `group` fits the input's. An error is want of memory, and `out` may then hold some first ones
    /// of them.
    fn reduce(
        &self,
        alloc: Global,
        args: &[Cell],
        group: &[Row],
        out: &mut Vec<Row>,
    ) -> Result<(), AllocError>
        ensures ok { OnOk result
            (out.new.items ≡ out.old.items ++ (told_reducer self.now).reduces args.now group.now) }
        ensures err { OnErr result
            (AddsSome out.old.items out.new.items ((told_reducer self.now).reduces args.now group.now)) }
        ensures fits { GroupGivesFitting (told_reducer self.now) args.now group.now };
}
