//! What a token's bytes stand for.
ghost use Rattle.std.specs.Prelude.{◌≡◌, ◌≤◌, ◌<◌, ◌^◌, length, IfOk};
ghost use Rattle.std.specs.Str.Parse.{digits_value};
ghost use Rattle.scope_lexer.specs.Tokens.{IsOne, string_bytes_of, text_of};
ghost use Rattle.scope_lexer.specs.declared.kind.TokenKind.TheVariants.{Number, Text};

use crate::string::unescaped;
use crate::token::Token;
use crate::word::value_of;
use std::alloc::{AllocError, Global};

/// The bytes of a token, in the text that it came from.
pub fn token_text(text: &str, token: Token) -> &[u8]
    requires order { token.from ≤ token.to }
    requires inside { token.to ≤ length text.now }
    ensures { result.now ≡ text_of text.entry.now token }
{
    &text.as_bytes()[token.from as usize..token.to as usize]
}

/// The bytes that a string stands for: those between its quotes, each escape as the one byte that it means.
#[tactic(auto, using(crate::proofs::Alone::string_one))]
pub fn string_value(alloc: Global, text: &[u8]) -> Result<Vec<u8>, AllocError>
    requires { IsOne Text text.now }
    ensures { IfOk result (λ v. v.items ≡ string_bytes_of text.now) }
{
    unescaped(alloc, &text[1..text.len() - 1])
}

/// The value of a number, which fits a signed number of 64 bits too.
pub fn number_value(text: &[u8]) -> u64
    requires { IsOne Number text.now }
    ensures value { result ≡ digits_value 10 text.now }
    ensures signed { result < 2 ^ 63 }
{
    value_of(text).unwrap()
}
