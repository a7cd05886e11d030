//! Strings: where they end, and the bytes that they stand for.
ghost use Rattle.std.specs.Prelude.{◌≡◌, ◌≤◌, ◌<◌, ◌+◌, ◌^◌, drop, length, IfOk, IfSome};
ghost use Rattle.scope_lexer.specs.Begins as spec;
ghost use Rattle.scope_lexer.specs.Bytes as bytes;

use crate::byte::byte_at;
use std::alloc::{AllocError, Global};

/// Whether this byte may stand behind a backslash.
fn is_escape(b: u8) -> bool
    ensures { result ≡ bytes.is_escape b }
{
    b == b'\\' || b == b'"' || b == b'n' || b == b't'
}

/// The byte that a backslash and this byte stand for.
fn escaped(b: u8) -> u8
    ensures { result ≡ bytes.escaped b }
{
    match b {
        b'n' => b'\n',
        b't' => b'\t',
        _ => b,
    }
}

/// The place behind the quote that closes the string at the text's front.
pub(crate) fn string_end(text: &[u8]) -> Option<usize>
    requires some { 0 < length text.now }
    requires short { length text.now < 2 ^ 32 }
    ensures end { result ≡ spec.string_end 1 (drop 1 text.now) }
    ensures within { IfSome result (λ end. (1 ≤ end) × (end ≤ length text.now)) }
{
    let mut at = 1;
    while at < text.len() {
        match text[at] {
            b'"' => return Some(at + 1),
            b'\r' | b'\n' => return None,
            b'\\' => {
                if !is_escape(byte_at(text, at + 1)) {
                    return None;
                }
                at += 2;
            }
            _ => at += 1,
        }
    }
    None
}

/// The bytes that those between a string's quotes stand for.
pub(crate) fn unescaped(alloc: Global, text: &[u8]) -> Result<Vec<u8>, AllocError>
    ensures { IfOk result (λ v. v.items ≡ bytes.unescaped text.now) }
{
    let mut out = Vec::with_capacity(alloc, text.len())?;
    let mut rest = text;
    while let [b, after @ ..] = rest {
        match after {
            [c, behind @ ..] if *b == b'\\' => {
                out.push(escaped(*c))?;
                rest = behind;
            }
            _ => {
                out.push(*b)?;
                rest = after;
            }
        }
    }
    Ok(out)
}
