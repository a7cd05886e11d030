// Operators of EXTRACT: rows out of the fields of records.
ghost use Rattle.std.specs.Prelude.{◌≡◌, OnErr, IfOk};
ghost use Rattle.user_ops.specs.Lawful.{IsLawfulExtractor};
ghost use Rattle.user_ops.specs.Told.{ToldExtractor};
ghost use Rattle.user_ops.specs.Extracts.{AppendsWhole, AppendsPart, AreFixedColumns, ReadsFitting};

use scope_value::{Cell, Column, Schema, Value};
use std::alloc::{AllocError, Global};

/// Reads rows out of the fields of records.
///
/// What it reads is a function of the args, the output's columns and the fields alone: it tells that function, and each
/// call keeps to it.
pub trait Extractor: Drop {
    // Which output schemas and args it takes, the row of the fields, its fixed columns and its delimiter.
    ghost told_extractor: { Self → ToldExtractor };

    // Its law: the row that it reads fits the output, for all outputs and args that it takes; and where it has fixed columns,
    // they are at least one, all of different names.
    ghost extractor_law: { (e : Self) → IsLawfulExtractor (told_extractor e) };

    /// Whether it has fixed columns. Where it has, they are added at the end of `out`: at least one, all of different
    /// names. An error is want of memory, and `out` may then hold some first ones of them.
    fn fixed(&self, alloc: Global, out: &mut Vec<Column>) -> Result<bool, AllocError>
        ensures ok { IfOk result (λ has.
            AppendsWhole (told_extractor self.now).fixed_columns has out.old.items out.new.items) }
        ensures err { OnErr result
            (AppendsPart (told_extractor self.now).fixed_columns out.old.items out.new.items) }
        ensures distinct { AreFixedColumns (told_extractor self.now).fixed_columns };

    /// Whether it gives rows of `output` with these args.
    fn accepts(&self, output: &Schema, args: &[Cell]) -> bool
        ensures { result ≡ (told_extractor self.now).takes output.now args.now };

    /// The byte between two fields of a record, with these args.
    fn delimiter(&self, args: &[Cell]) -> u8
        ensures { result ≡ (told_extractor self.now).delimits args.now };

    /// Adds the values of the row that it reads from `fields` at the end of `out`, and answers true; or answers false,
    /// a refusal, and adds nothing. For an output and args that it takes, the row fits `output`. An error is want of
    /// memory, and `out` may then hold some first ones of the values.
    fn extract(
        &self,
        alloc: Global,
        args: &[Cell],
        output: &Schema,
        fields: &[Cell],
        out: &mut Vec<Value>,
    ) -> Result<bool, AllocError>
        ensures ok { IfOk result (λ taken.
            AppendsWhole
            ((told_extractor self.now).extracts args.now output.now fields.now)
            taken
            out.old.items
            out.new.items) }
        ensures err { OnErr result
            (AppendsPart
            ((told_extractor self.now).extracts args.now output.now fields.now)
            out.old.items
            out.new.items) }
        ensures fits { ReadsFitting (told_extractor self.now) args.now output.now fields.now };
}
