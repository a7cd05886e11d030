// A script's pieces: what stands between semicolons, each a statement.
ghost use Rattle.std.specs.Prelude.{◌≡◌, ◌<◌, ◌^◌, [], ◌∷◌, IfErr, IfOk, MatchOption, MatchResult, OnOk, length, map};
ghost use Rattle.std.specs.List.{slice_split};
ghost use Rattle.expression_syntax.specs.Lexemes.{lexeme_of};
ghost use Rattle.scope_syntax.specs.ReadScripts as spec;
ghost use Rattle.scope_syntax.specs.Statements as grammar;
ghost use Rattle.scope_syntax.specs.Statements.{IsFirstFault, SpellsScript};

use crate::fault::SyntaxFault;
use crate::statement::statement_of;
use expression_syntax::{Refusal, Symbol, Terminal};
use script_trees::{Script, Statement};
use sqlite_items::Items;
use std::alloc::{AllocError, Global};

/// Whether a terminal ends a statement.
fn is_end(terminal: &Terminal) -> bool
    ensures { result ≡ grammar.is_end (lexeme_of terminal.now) }
{
    matches!(terminal, Terminal::Symbol(Symbol::Semicolon))
}

/// The first piece, and what stands behind its semicolon, where it has one.
fn cut<'a>(terminals: &'a [Terminal<'a>]) -> (&'a [Terminal<'a>], Option<&'a [Terminal<'a>]>)
    ensures pieces { MatchOption result.1 (slice_split grammar.is_end (map lexeme_of terminals.entry.now) ≡ map lexeme_of result.0.now ∷ []) (λ more. slice_split grammar.is_end (map lexeme_of terminals.entry.now) ≡ map lexeme_of result.0.now ∷ slice_split grammar.is_end (map lexeme_of more.now)) }
    ensures shorter { MatchOption result.1 (length terminals.entry.now < 2 ^ 64) (λ more. length more.now < length terminals.entry.now) }
{
    for (at, terminal) in terminals.iter().enumerate() {
        if is_end(terminal) {
            return (&terminals[..at], Some(&terminals[at + 1..]));
        }
    }
    (terminals, None)
}

/// Adds the statement that a piece is, if it isn't empty.
fn add<'a>(
    alloc: Global,
    statements: &mut Items<Statement>,
    piece: &'a [Terminal<'a>],
) -> Result<(), Refusal>
    ensures { MatchResult result (λ _. spec.Added (map lexeme_of piece.entry.now) statements.old statements.new) (spec.Refused (map lexeme_of piece.entry.now) statements.old statements.new) }
{
    if piece.is_empty() {
        return Ok(());
    }
    let statement = statement_of(alloc, piece)?;
    statements.push(statement)?;
    Ok(())
}

/// The statements of a whole script, or the first piece that is none.
pub(crate) fn script_of<'a>(
    alloc: Global,
    terminals: &'a [Terminal<'a>],
) -> Result<Result<Script, SyntaxFault>, AllocError>
    requires { length terminals.now < 2 ^ 31 }
    ensures { IfOk result (λ r. MatchResult r (λ s. SpellsScript (map lexeme_of terminals.entry.now) s) (λ f. IsFirstFault (map lexeme_of terminals.entry.now) f.statement)) }
{
    let mut statements = Items::new(alloc);
    let mut rest = Some(terminals);
    while let Some(ahead) = rest {
        let (piece, more) = cut(ahead);
        match add(alloc, &mut statements, piece) {
            Ok(()) => {}
            Err(Refusal::Memory) => return Err(AllocError),
            Err(Refusal::Grammar) => {
                let statement = statements.len() as u32 + 1;
                return Ok(Err(SyntaxFault { statement }));
            }
        }
        rest = more;
    }
    Ok(Ok(Script { statements }))
}
