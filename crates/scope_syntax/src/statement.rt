// EXTRACT, and whole statements.
ghost use Rattle.std.specs.Prelude.{◌≡◌, [], length, map, MatchResult, Some};
ghost use Rattle.expression_syntax.specs.Lexemes.{lexeme_of};
ghost use Rattle.expression_syntax.specs.Reading.{Fails, Reads};
ghost use Rattle.scope_syntax.specs.ReadStatements as spec;
ghost use Rattle.scope_syntax.specs.Statements as grammar;

use crate::commands::{read_combine, read_output, read_process, read_reduce};
use crate::selecting::read_select;
use crate::stored::read_stored;
use expression_syntax::{Keyword, Parser, Refusal, Symbol, Terminal, beside};
use scope_value::Cell;
use script_trees::{Command, Statement};
use std::alloc::Global;

/// Whether a command can have a name.
fn can_be_named(command: &Command) -> bool
    ensures { result ≡ grammar.can_be_named command.now }
{
    !matches!(command, Command::Output { .. })
}

/// extract, behind its word.
#[tactic(auto, unfolding(crate::specs::ReadStatements::extract))]
fn read_extract(parser: &mut Parser) -> Result<Command, Refusal>
    ensures { Reads (spec.extract parser.old) result parser.new }
{
    let cols = parser.list()?;
    let (cols, ()) = beside(cols, parser.expect_word(Keyword::From))?;
    let read = beside(cols, parser.text())?;
    let (read, ()) = beside(read, parser.expect_word(Keyword::Using))?;
    let read = beside(read, parser.op())?;
    let (((cols, stream), call), stored) = beside(read, read_stored(parser))?;
    Ok(Command::Extract {
        cols,
        stream,
        call,
        stored,
    })
}

#[tactic(auto, unfolding(crate::specs::ReadStatements::selection))]
fn read_selection(parser: &mut Parser) -> Result<Command, Refusal>
    ensures { Reads (spec.selection parser.old) result parser.new }
{
    let select = read_select(parser)?;
    Ok(Command::Select(select))
}

/// A command, of which the first terminal was taken.
fn read_command_from(parser: &mut Parser, first: Terminal) -> Result<Command, Refusal>
    ensures { Reads (spec.command_from (lexeme_of first.entry) parser.old) result parser.new }
{
    match first {
        Terminal::Keyword(Keyword::Extract) => read_extract(parser),
        Terminal::Keyword(Keyword::Select) => read_selection(parser),
        Terminal::Keyword(Keyword::Process) => read_process(parser),
        Terminal::Keyword(Keyword::Reduce) => read_reduce(parser),
        Terminal::Keyword(Keyword::Combine) => read_combine(parser),
        Terminal::Keyword(Keyword::Output) => read_output(parser),
        _ => Err(Refusal::Grammar),
    }
}

#[tactic(auto, unfolding(crate::specs::ReadStatements::command))]
fn read_command(parser: &mut Parser) -> Result<Command, Refusal>
    ensures { Reads (spec.command parser.old) result parser.new }
{
    match parser.take() {
        None => Err(Refusal::Grammar),
        Some(first) => read_command_from(parser, first),
    }
}

/// A statement, of which the name was taken.
#[tactic(auto, unfolding(crate::specs::ReadStatements::named_statement))]
fn read_named_statement(parser: &mut Parser, name: &[u8]) -> Result<Statement, Refusal>
    ensures { Reads (spec.named_statement name.now parser.old) result parser.new }
{
    parser.expect(Symbol::Is)?;
    let name = Some(Cell::from_slice(parser.alloc(), name)?);
    let (name, command) = beside(name, read_command(parser))?;
    if can_be_named(&command) {
        Ok(Statement { name, command })
    } else {
        drop(command);
        Err(Refusal::Grammar)
    }
}

/// statement: a command, which may have a name, or an output.
#[tactic(auto, unfolding(crate::specs::ReadStatements::statement))]
fn read_statement(parser: &mut Parser) -> Result<Statement, Refusal>
    ensures { Reads (spec.statement parser.old) result parser.new }
{
    match parser.take() {
        None => Err(Refusal::Grammar),
        Some(Terminal::Name(name)) => read_named_statement(parser, name),
        Some(first) => {
            let command = read_command_from(parser, first)?;
            let name = None;
            Ok(Statement { name, command })
        }
    }
}

/// The statement that the terminals are.
#[tactic(auto, unfolding(crate::specs::ReadStatements::read_statement))]
pub(crate) fn statement_of<'a>(
    alloc: Global,
    piece: &'a [Terminal<'a>],
) -> Result<Statement, Refusal>
    ensures { spec.Answers (spec.read_statement (map lexeme_of piece.entry.now)) result }
{
    let mut parser = Parser::new(alloc, piece);
    let statement = read_statement(&mut parser)?;
    if parser.left() == 0 {
        Ok(statement)
    } else {
        drop(statement);
        Err(Refusal::Grammar)
    }
}
