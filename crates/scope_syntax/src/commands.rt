// The commands besides SELECT, each behind its first word.
ghost use Rattle.std.specs.Prelude.{◌≡◌};
ghost use Rattle.expression_syntax.specs.Reading as reading;
ghost use Rattle.expression_syntax.specs.Reading.{Reads};
ghost use Rattle.scope_syntax.specs.ReadCommands as spec;
ghost use Rattle.expression_syntax.specs.ReadParts as parts;

use crate::stored::read_stored;
use expression_syntax::{Keyword, Parser, Refusal, beside};
use scope_value::{Cell, Column};
use script_trees::{Call, Command, RawKey, Source};
use sqlite_items::Items;

/// USING and PRODUCE: what a command applies, and the columns that it makes.
type Produced = (Call, Items<Column>);

/// An input of COMBINE, and the keys by which each of its groups is sorted.
type Input = (Source, Option<Items<RawKey>>);

/// The keys behind PRESORT, where it is.
#[tactic(auto, unfolding(expression_syntax::specs::ReadParts::optional))]
fn read_presort(parser: &mut Parser) -> Result<Option<Items<RawKey>>, Refusal>
    ensures { Reads (spec.presort parser.old) result parser.new }
{
    if parser.eat_word(Keyword::Presort) {
        let keys = parser.list()?;
        Ok(Some(keys))
    } else {
        Ok(None)
    }
}

/// The name behind USING, where it is.
#[tactic(auto, unfolding(expression_syntax::specs::ReadParts::optional))]
fn read_outputter(parser: &mut Parser) -> Result<Option<Cell>, Refusal>
    ensures { Reads (parts.optional Keyword.Using reading.take_name parser.old) result parser.new }
{
    if parser.eat_word(Keyword::Using) {
        let name = parser.name()?;
        Ok(Some(name))
    } else {
        Ok(None)
    }
}

/// USING op PRODUCE cols.
#[tactic(auto, unfolding(crate::specs::ReadCommands::produced))]
fn read_produced(parser: &mut Parser) -> Result<Produced, Refusal>
    ensures { Reads (spec.produced parser.old) result parser.new }
{
    parser.expect_word(Keyword::Using)?;
    let call = parser.op()?;
    parser.expect_word(Keyword::Produce)?;
    let cols = parser.list()?;
    Ok((call, cols))
}

/// process: a source or none, an operator, and columns.
#[tactic(auto, unfolding(crate::specs::ReadCommands::process))]
pub(crate) fn read_process(parser: &mut Parser) -> Result<Command, Refusal>
    ensures { Reads (spec.process parser.old) result parser.new }
{
    let source = parser.source_if_any()?;
    let (call, cols) = read_produced(parser)?;
    Ok(Command::Process { source, call, cols })
}

/// reduce: a source or none, its groups' order, its groups, an operator, and columns.
#[tactic(auto, unfolding(crate::specs::ReadCommands::reduce))]
pub(crate) fn read_reduce(parser: &mut Parser) -> Result<Command, Refusal>
    ensures { Reads (spec.reduce parser.old) result parser.new }
{
    let source = parser.source_if_any()?;
    let input = beside(source, read_presort(parser))?;
    let (input, ()) = beside(input, parser.expect_word(Keyword::On))?;
    let grouped = beside(input, parser.list())?;
    let (grouped, (call, cols)) = beside(grouped, read_produced(parser))?;
    let ((source, presort), on) = grouped;
    Ok(Command::Reduce {
        source,
        presort,
        on,
        call,
        cols,
    })
}

/// A source, and its groups' order.
#[tactic(auto, unfolding(crate::specs::ReadCommands::input))]
fn read_input(parser: &mut Parser) -> Result<Input, Refusal>
    ensures { Reads (spec.input parser.old) result parser.new }
{
    let source = parser.source()?;
    let presort = read_presort(parser)?;
    Ok((source, presort))
}

/// combine: two inputs, the columns that tie them, an operator, and columns.
#[tactic(auto, unfolding(crate::specs::ReadCommands::combine))]
pub(crate) fn read_combine(parser: &mut Parser) -> Result<Command, Refusal>
    ensures { Reads (spec.combine parser.old) result parser.new }
{
    let left = read_input(parser)?;
    let (left, ()) = beside(left, parser.expect_word(Keyword::With))?;
    let inputs = beside(left, read_input(parser))?;
    let (inputs, ()) = beside(inputs, parser.expect_word(Keyword::On))?;
    let joined = beside(inputs, parser.list())?;
    let (joined, (call, cols)) = beside(joined, read_produced(parser))?;
    let (((left, left_presort), (right, right_presort)), on) = joined;
    Ok(Command::Combine {
        left,
        left_presort,
        right,
        right_presort,
        on,
        call,
        cols,
    })
}

/// output: a name or none, a stream, an outputter or none, and what is declared of the stream.
#[tactic(auto, unfolding(crate::specs::ReadCommands::output))]
pub(crate) fn read_output(parser: &mut Parser) -> Result<Command, Refusal>
    ensures { Reads (spec.output parser.old) result parser.new }
{
    let source = parser.name_if_any()?;
    let (source, ()) = beside(source, parser.expect_word(Keyword::To))?;
    let outlet = beside(source, parser.text())?;
    let outlet = beside(outlet, read_outputter(parser))?;
    let (((source, stream), outputter), stored) = beside(outlet, read_stored(parser))?;
    Ok(Command::Output {
        source,
        stream,
        outputter,
        stored,
    })
}
