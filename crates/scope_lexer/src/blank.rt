//! What stands between tokens: white space and comments.
ghost use Rattle.std.specs.Prelude.{◌≡◌, ◌≤◌, ◌<◌, ◌+◌, ◌^◌, length, slice_index, IfSome};
ghost use Rattle.std.specs.List.{prefix_len};
ghost use Rattle.scope_lexer.specs.Begins as spec;
ghost use Rattle.scope_lexer.specs.Bytes as bytes;

use crate::byte::byte_at;

/// Whether a byte is white space.
pub(crate) fn is_space(b: u8) -> bool
    ensures { result ≡ bytes.is_space b }
{
    b == b' ' || b == b'\t' || b == b'\r' || b == b'\n'
}

/// How much white space the text begins with.
pub(crate) fn space_len(text: &[u8]) -> usize
    ensures len { result ≡ prefix_len bytes.is_space text.now }
    ensures within { result ≤ length text.now }
{
    let mut len = 0;
    while len < text.len() && is_space(text[len]) {
        len += 1;
    }
    len
}

/// The length of a comment up to the line's end, or the text's.
pub(crate) fn line_comment(text: &[u8]) -> usize
    ensures len { result ≡ spec.line_comment text.now }
    ensures within { result ≤ length text.now }
{
    let mut len = 0;
    while len < text.len() && text[len] != b'\n' {
        len += 1;
    }
    len
}

/// The end of a comment whose two first bytes stand before this text.
pub(crate) fn comment_end(text: &[u8]) -> Option<usize>
    requires { length text.now < 2 ^ 32 }
    ensures end { result ≡ spec.comment_end 2 text.now }
    ensures within { IfSome result (λ end. (1 ≤ end) × (end ≤ length text.now + 2)) }
{
    let mut rest = text;
    let mut at = 2;
    while let [b, after @ ..] = rest {
        if *b == b'*' && byte_at(after, 0) == b'/' {
            return Some(at + 2);
        }
        rest = after;
        at += 1;
    }
    None
}
