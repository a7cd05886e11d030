// The public call: from the tokens of a text to its script, or to the first statement outside the grammar.
ghost use Rattle.std.specs.Prelude.{IfOk, MatchResult};
ghost use Rattle.scope_lexer.specs.Tokens.{IsLexed};
ghost use Rattle.scope_syntax.specs.Statements.{IsFirstFault, SpellsScript};
ghost use Rattle.expression_syntax.specs.Terminals.{lexemes};

use crate::fault::SyntaxFault;
use crate::pieces::script_of;
use expression_syntax::{strings, terminals_of};
use scope_lexer::Token;
use scope_lexer::laws::tokens_stand;
use script_trees::Script;
use std::alloc::{AllocError, Global};

/// The script that the tokens of a text spell. Where they spell none, the first statement outside the grammar is named:
/// statements are what stands between semicolons, those that are empty are not counted, and the first is number 1.
///
/// The text is the one that the tokens come from. Each token is looked at a bounded number of times.
pub fn parse(
    alloc: Global,
    text: &str,
    tokens: &[Token],
) -> Result<Result<Script, SyntaxFault>, AllocError>
    requires { IsLexed text.now tokens.now }
    ensures { IfOk result (λ r. MatchResult r (λ s. SpellsScript (lexemes text.now tokens.now) s) (λ f. IsFirstFault (lexemes text.now tokens.now) f.statement)) }
{
    tokens_stand();
    let strings = strings(alloc, text, tokens)?;
    let terminals = terminals_of(alloc, text, tokens, &strings)?;
    script_of(alloc, &terminals)
}
