// From the tokens of a text to the terminals of the grammar.
ghost use Rattle.std.specs.Prelude.{◌≡◌, All, IfOk, List, map, ℕ};
ghost use Rattle.scope_lexer.specs.Tokens.{IsTokenOf, string_bytes_of, text_of};
ghost use Rattle.scope_lexer.specs.declared.kind.TokenKind.TheVariants.{Text};
ghost use Rattle.expression_syntax.specs.Lexemes.{lexeme_of};
ghost use Rattle.expression_syntax.specs.Terminals as spec;

use crate::tables::{keyword_of, symbol_of};
use crate::terminal::Terminal;
use scope_lexer::{Token, TokenKind, number_value, string_value, token_text};
use scope_value::Cell;
use std::alloc::{AllocError, Global};

fn string(alloc: Global, text: &str, token: Token) -> Result<Cell, AllocError>
    requires stands { IsTokenOf text.now token }
    requires kind { token.kind ≡ Text }
    ensures { IfOk result (λ c. c ≡ string_bytes_of (text_of text.now token)) }
{
    Ok(Cell::from_vec(string_value(alloc, token_text(text, token))?))
}

/// What the strings among the tokens stand for, in their order.
pub fn strings(alloc: Global, text: &str, tokens: &[Token]) -> Result<Vec<Cell>, AllocError>
    requires { All (IsTokenOf text.now) tokens.now }
    ensures { IfOk result (λ v. v.items ≡ spec.strings text.now tokens.now) }
{
    let mut strings = Vec::new(alloc);
    for token in tokens {
        if token.kind == TokenKind::Text {
            strings.push(string(alloc, text, *token)?)?;
        }
    }
    Ok(strings)
}

/// The terminal that a token is, where the first of the strings that are left is its own if it is one. Answers the
/// strings that are left then, too.
fn terminal<'a>(text: &'a str, token: Token, strings: &'a [Cell]) -> (Terminal<'a>, &'a [Cell])
    requires { IsTokenOf text.now token }
    ensures { (more : List (List ℕ)) → strings.entry.now ≡ spec.with_string token.kind (text_of text.entry.now token) more → (lexeme_of result.0 ≡ spec.lexeme_by token.kind (text_of text.entry.now token)) × (result.1.now ≡ more) }
{
    let bytes = token_text(text, token);
    match token.kind {
        TokenKind::Name => (Terminal::Name(bytes), strings),
        TokenKind::Keyword => (Terminal::Keyword(keyword_of(bytes)), strings),
        TokenKind::Number => (Terminal::Number(bytes, number_value(bytes) as i64), strings),
        TokenKind::Symbol => (Terminal::Symbol(symbol_of(bytes)), strings),
        TokenKind::Text => match strings {
            [first, more @ ..] => (Terminal::Text(first.as_slice()), more),
            [] => (Terminal::Text(&[]), strings),
        },
    }
}

/// The terminals of a text's tokens, of whose strings the bytes are given.
pub fn terminals_of<'a>(
    alloc: Global,
    text: &'a str,
    tokens: &[Token],
    strings: &'a [Cell],
) -> Result<Vec<Terminal<'a>>, AllocError>
    requires stand { All (IsTokenOf text.now) tokens.now }
    requires strings { strings.now ≡ spec.strings text.now tokens.now }
    ensures { IfOk result (λ v. map lexeme_of v.items ≡ spec.lexemes text.entry.now tokens.entry.now) }
{
    let mut terminals = Vec::with_capacity(alloc, tokens.len())?;
    let mut rest = strings;
    for token in tokens {
        let (terminal, more) = terminal(text, *token, rest);
        terminals.push(terminal)?;
        rest = more;
    }
    Ok(terminals)
}
