// The operators of a set by their names, without their boxes, and what names stand for by them.
ghost use Rattle.std.specs.Prelude.{◌≡◌, length, IfOk};
ghost use Rattle.names_in_sight.specs.Inputs as inputs;
ghost use Rattle.names_in_sight.specs.Inputs.{before_of};
ghost use Rattle.names_in_sight.specs.Operators.{inline_columns};
ghost use Rattle.name_resolution.specs.Resolved as resolved;
ghost use Rattle.names_in_sight.specs.Views as selects;
ghost use Rattle.binding_causes.specs.Operators as spec;

use crate::earlier::Earlier;
use name_resolution::{heading_of, resolved_statement};
use names_in_sight::{Input, View, inline_columns, input_of, input_of_opt, view_of};
use scope_value::{Cell, Schema};
use script_trees::{Command, Select, Source, Statement};
use std::alloc::{AllocError, Global};
use user_ops::{Combiner, Extractor, OpSet, Processor, Reducer, Tells};

/// Whether operators are there, and what they take. What is proved over this speaks of names and of what operators tell, and of no box.
pub(crate) trait Knows: Tells {
    fn has_extractor(&self, name: &[u8]) -> bool
        ensures { result ≡ spec.is_in (Self.tells self.now).extractor_names name.now };

    fn has_processor(&self, name: &[u8]) -> bool
        ensures { result ≡ spec.is_in (Self.tells self.now).processor_names name.now };

    fn has_reducer(&self, name: &[u8]) -> bool
        ensures { result ≡ spec.is_in (Self.tells self.now).reducer_names name.now };

    fn has_combiner(&self, name: &[u8]) -> bool
        ensures { result ≡ spec.is_in (Self.tells self.now).combiner_names name.now };

    /// Whether the extractor has fixed columns and takes them. An error is want of memory.
    fn takes_fixed(&self, alloc: Global, name: &[u8], args: &[Cell]) -> Result<bool, AllocError>
        ensures { IfOk result (λ b. b ≡ spec.takes_fixed (Self.tells self.now) name.now args.now) };

    /// Whether it takes the columns.
    fn extractor_takes(&self, name: &[u8], args: &[Cell], output: &Schema) -> bool
        ensures { result ≡ spec.extractor_takes (Self.tells self.now) name.now args.now output.now };

    fn processor_takes(&self, name: &[u8], args: &[Cell], input: &Schema, output: &Schema) -> bool
        ensures { result ≡ spec.processor_takes (Self.tells self.now) name.now args.now input.now output.now };

    fn reducer_takes(&self, name: &[u8], args: &[Cell], input: &Schema, output: &Schema) -> bool
        ensures { result ≡ spec.reducer_takes (Self.tells self.now) name.now args.now input.now output.now };

    fn combiner_takes(
        &self,
        name: &[u8],
        args: &[Cell],
        left: &Schema,
        right: &Schema,
        output: &Schema,
    ) -> bool
        ensures { result ≡ spec.combiner_takes (Self.tells self.now) name.now args.now left.now right.now output.now };

    /// How many fixed columns the extractor has; 0 where it has none. An error is want of memory.
    fn inline_width(&self, alloc: Global, name: &Cell) -> Result<usize, AllocError>
        ensures { IfOk result (λ n. n ≡ length (inline_columns (Self.tells self.now) name.now)) };

    /// What is read of a source. An error is want of memory.
    fn input_of(
        &self,
        alloc: Global,
        at: &Earlier<'_>,
        source: &Source,
    ) -> Result<Input, AllocError>
        ensures { IfOk result (λ i. i ≡ inputs.input_of (Self.tells self.now) (before_of at.now.statements.now at.now.headings.now) source.now) };

    /// The same, and the result of the statement just before where the source is left out.
    fn input_of_opt(
        &self,
        alloc: Global,
        at: &Earlier<'_>,
        source: &Option<Source>,
    ) -> Result<Input, AllocError>
        ensures { IfOk result (λ i. i ≡ inputs.input_of_opt (Self.tells self.now) (before_of at.now.statements.now at.now.headings.now) source.now) };

    /// A SELECT from inside. An error is want of memory.
    fn view_of(&self, alloc: Global, at: &Earlier<'_>, select: &Select) -> Result<View, AllocError>
        ensures { IfOk result (λ v. v ≡ selects.view_of (Self.tells self.now) (before_of at.now.statements.now at.now.headings.now) select.now) };

    /// The columns of a command's result. An error is want of memory.
    fn heading_of(
        &self,
        alloc: Global,
        at: &Earlier<'_>,
        command: &Command,
    ) -> Result<Schema, AllocError>
        ensures { IfOk result (λ cs. cs ≡ resolved.heading_of (Self.tells self.now) (before_of at.now.statements.now at.now.headings.now) command.now) };

    /// The statement with its names resolved. An error is want of memory.
    fn resolved(
        &self,
        alloc: Global,
        at: &Earlier<'_>,
        statement: &Statement,
    ) -> Result<placed_trees::Statement, AllocError>
        ensures { IfOk result (λ s. s ≡ resolved.resolved_statement (Self.tells self.now) (before_of at.now.statements.now at.now.headings.now) statement.now) };
}

impl Knows for OpSet {
    fn has_extractor(&self, name: &[u8]) -> bool {
        self.find_extractor(name).is_some()
    }

    fn has_processor(&self, name: &[u8]) -> bool {
        self.find_processor(name).is_some()
    }

    fn has_reducer(&self, name: &[u8]) -> bool {
        self.find_reducer(name).is_some()
    }

    fn has_combiner(&self, name: &[u8]) -> bool {
        self.find_combiner(name).is_some()
    }

    fn takes_fixed(&self, alloc: Global, name: &[u8], args: &[Cell]) -> Result<bool, AllocError> {
        match self.find_extractor(name) {
            Some(place) => fixed_taken(alloc, self.extractor_at(place), args),
            None => Ok(false),
        }
    }

    fn extractor_takes(&self, name: &[u8], args: &[Cell], output: &Schema) -> bool {
        match self.find_extractor(name) {
            Some(place) => extractor_accepts(self.extractor_at(place), args, output),
            None => false,
        }
    }

    fn processor_takes(&self, name: &[u8], args: &[Cell], input: &Schema, output: &Schema) -> bool {
        match self.find_processor(name) {
            Some(place) => processor_accepts(self.processor_at(place), args, input, output),
            None => false,
        }
    }

    fn reducer_takes(&self, name: &[u8], args: &[Cell], input: &Schema, output: &Schema) -> bool {
        match self.find_reducer(name) {
            Some(place) => reducer_accepts(self.reducer_at(place), args, input, output),
            None => false,
        }
    }

    fn combiner_takes(
        &self,
        name: &[u8],
        args: &[Cell],
        left: &Schema,
        right: &Schema,
        output: &Schema,
    ) -> bool {
        match self.find_combiner(name) {
            Some(place) => combiner_accepts(self.combiner_at(place), args, left, right, output),
            None => false,
        }
    }

    fn inline_width(&self, alloc: Global, name: &Cell) -> Result<usize, AllocError> {
        let columns = inline_columns(alloc, self, name)?;
        Ok(columns.len())
    }

    fn input_of(
        &self,
        alloc: Global,
        at: &Earlier<'_>,
        source: &Source,
    ) -> Result<Input, AllocError> {
        input_of(alloc, self, at.statements, at.headings, source)
    }

    fn input_of_opt(
        &self,
        alloc: Global,
        at: &Earlier<'_>,
        source: &Option<Source>,
    ) -> Result<Input, AllocError> {
        input_of_opt(alloc, self, at.statements, at.headings, source)
    }

    fn view_of(
        &self,
        alloc: Global,
        at: &Earlier<'_>,
        select: &Select,
    ) -> Result<View, AllocError> {
        view_of(alloc, self, at.statements, at.headings, select)
    }

    fn heading_of(
        &self,
        alloc: Global,
        at: &Earlier<'_>,
        command: &Command,
    ) -> Result<Schema, AllocError> {
        heading_of(alloc, self, at.statements, at.headings, command)
    }

    fn resolved(
        &self,
        alloc: Global,
        at: &Earlier<'_>,
        statement: &Statement,
    ) -> Result<placed_trees::Statement, AllocError> {
        resolved_statement(alloc, self, at.statements, at.headings, statement)
    }
}

fn fixed_taken(alloc: Global, op: &Box<dyn Extractor>, args: &[Cell]) -> Result<bool, AllocError>
    ensures { IfOk result (λ b. b ≡ spec.fixed_taken args.now (told_extractor op.now)) }
{
    fixed_taken_by(alloc, &**op, args)
}

fn fixed_taken_by(alloc: Global, op: &dyn Extractor, args: &[Cell]) -> Result<bool, AllocError>
    ensures { IfOk result (λ b. b ≡ spec.fixed_taken args.now (told_extractor op.now)) }
{
    let mut columns = Vec::new(alloc);
    let is_fixed = op.fixed(alloc, &mut columns)?;
    let columns = Schema::from_vec(columns);
    Ok(is_fixed && op.accepts(&columns, args))
}

fn extractor_accepts(op: &Box<dyn Extractor>, args: &[Cell], output: &Schema) -> bool
    ensures { result ≡ (told_extractor op.now).takes output.now args.now }
{
    op.accepts(output, args)
}

fn processor_accepts(
    op: &Box<dyn Processor>,
    args: &[Cell],
    input: &Schema,
    output: &Schema,
) -> bool
    ensures { result ≡ (told_processor op.now).takes input.now output.now args.now }
{
    op.accepts(input, output, args)
}

fn reducer_accepts(op: &Box<dyn Reducer>, args: &[Cell], input: &Schema, output: &Schema) -> bool
    ensures { result ≡ (told_reducer op.now).takes input.now output.now args.now }
{
    op.accepts(input, output, args)
}

fn combiner_accepts(
    op: &Box<dyn Combiner>,
    args: &[Cell],
    left: &Schema,
    right: &Schema,
    output: &Schema,
) -> bool
    ensures { result ≡ (told_combiner op.now).takes left.now right.now output.now args.now }
{
    op.accepts(left, right, output, args)
}
