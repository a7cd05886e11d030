// Operators of PROCESS: rows for one row.
ghost use Rattle.std.specs.Prelude.{◌≡◌, ◌++◌, OnOk, OnErr};
ghost use Rattle.user_ops.specs.Lawful.{IsLawfulProcessor};
ghost use Rattle.user_ops.specs.Told.{ToldProcessor};
ghost use Rattle.user_ops.specs.Appends.{AddsSome, GivesFitting};

use scope_value::{Cell, Row, Schema};
use std::alloc::{AllocError, Global};

/// Gives rows for a row.
///
/// What it gives is a function of the args and the row alone: it tells that function, and each call keeps to it.
pub trait Processor: Drop {
    // Which schemas and args it takes, and the rows that it gives for a row.
    ghost told_processor: { Self → ToldProcessor };

    // Its law: where a row fits its schema, the rows that it gives fit the output, for all schemas and args that it takes.
    ghost processor_law: { (p : Self) → IsLawfulProcessor (told_processor p) };

    /// Whether it takes rows of `input` with these args and gives rows of `output`.
    fn accepts(&self, input: &Schema, output: &Schema, args: &[Cell]) -> bool
        ensures { result ≡ (told_processor self.now).takes input.now output.now args.now };

    /// Adds its rows for `row` at the end of `out`. For schemas and args that it takes, they fit the output's schema
    /// where `row` fits the input's. An error is want of memory, and `out` may then hold some first ones of them.
    fn process(
        &self,
        alloc: Global,
        args: &[Cell],
        row: &Row,
        out: &mut Vec<Row>,
    ) -> Result<(), AllocError>
        ensures ok { OnOk result
            (out.new.items ≡ out.old.items ++ (told_processor self.now).processes args.now row.now) }
        ensures err { OnErr result
            (AddsSome out.old.items out.new.items ((told_processor self.now).processes args.now row.now)) }
        ensures fits { GivesFitting (told_processor self.now) args.now row.now };
}
