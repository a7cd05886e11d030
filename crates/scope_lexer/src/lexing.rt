//! The tokens of a whole text: piece after piece.
ghost use Rattle.std.specs.Prelude.{◌≡◌, ◌≤◌, ◌<◌, ◌+◌, ◌^◌, ◌++◌, [], length, MatchResult, IfOk, OnOk};
ghost use Rattle.scope_lexer.specs.Tokens.{IsFault, IsLexed, mark_len, with_token};

use crate::fault::LexFault;
use crate::piece::{Piece, front};
use crate::token::Token;
use std::alloc::{AllocError, Global};

/// The longest script, in bytes.
pub const MAX_SCRIPT: usize = 1_048_576;

/// The tokens of a text, in order, each inside the text and behind the one before it.
///
/// # Errors
/// Want of memory. Inside, [`LexFault`] with the place of the first byte at which neither white space nor a comment
/// nor a token begins; a text longer than [`MAX_SCRIPT`] gives `MAX_SCRIPT` before all else.
pub fn lex(alloc: Global, text: &str) -> Result<Result<Vec<Token>, LexFault>, AllocError>
    ensures { IfOk result (λ r. MatchResult r (λ tokens. IsLexed text.now tokens.items) (λ fault. IsFault text.now fault.at)) }
{
    let bytes = text.as_bytes();
    if bytes.len() > MAX_SCRIPT {
        return Ok(Err(LexFault {
            at: MAX_SCRIPT as u32,
        }));
    }
    let mut tokens = Vec::new(alloc);
    let mut at = mark_len(bytes);
    while at < bytes.len() {
        let Some(piece) = front(&bytes[at..]) else {
            return Ok(Err(LexFault { at: at as u32 }));
        };
        push_piece(&mut tokens, at, piece)?;
        at += piece.len;
    }
    Ok(Ok(tokens))
}

/// The length of a byte order mark at the text's start.
fn mark_len(bytes: &[u8]) -> usize
    ensures mark { result ≡ mark_len bytes.now }
    ensures within { result ≤ length bytes.now }
{
    if bytes.starts_with(b"\xef\xbb\xbf".as_slice()) {
        3
    } else {
        0
    }
}

/// Adds the piece that stands at a place, if it is a token.
fn push_piece(tokens: &mut Vec<Token>, at: usize, piece: Piece) -> Result<(), AllocError>
    requires { at + piece.len < 2 ^ 32 }
    ensures { OnOk result (tokens.new.items ≡ tokens.old.items ++ with_token piece.kind at (at + piece.len) []) }
{
    if let Some(kind) = piece.kind {
        let (from, to) = (at as u32, (at + piece.len) as u32);
        tokens.push(Token { kind, from, to })?;
    }
    Ok(())
}
