//! The piece at the front of a text, by its first bytes. `lexing` puts pieces one after another.
ghost use Rattle.std.specs.Prelude.{◌≡◌, ◌≤◌, ◌<◌, ◌^◌, length, IfSome};
ghost use Rattle.scope_lexer.specs.Begins.{begins};

use crate::blank::{comment_end, is_space, line_comment, space_len};
use crate::byte::byte_at;
use crate::kind::TokenKind;
use crate::string::string_end;
use crate::symbol::symbol_len;
use crate::word::{is_letter, number_len, word_kind, word_len};

/// White space or a comment, where it has no kind, or else a token.
#[derive(Clone, Copy, Debug, PartialEq, Eq)]
pub struct Piece {
    /// The token's kind.
    pub kind: Option<TokenKind>,
    /// How many bytes it has.
    pub len: usize,
}

/// The piece that the text begins with.
#[tactic(auto, unfolding(crate::specs::Begins::begins))]
pub(crate) fn front(text: &[u8]) -> Option<Piece>
    requires { length text.now < 2 ^ 32 }
    ensures piece { result ≡ begins text.now }
    ensures within { IfSome result (λ p. (1 ≤ p.len) × (p.len ≤ length text.now)) }
{
    let first = byte_at(text, 0);
    if is_space(first) {
        Some(Piece {
            kind: None,
            len: space_len(text),
        })
    } else if text.starts_with(b"//".as_slice()) {
        Some(Piece {
            kind: None,
            len: line_comment(text),
        })
    } else if text.starts_with(b"/*".as_slice()) {
        let len = comment_end(&text[2..])?;
        Some(Piece { kind: None, len })
    } else if is_letter(first) {
        let len = word_len(text);
        Some(Piece {
            kind: Some(word_kind(&text[..len])),
            len,
        })
    } else if first.is_ascii_digit() {
        let len = number_len(text)?;
        Some(Piece {
            kind: Some(TokenKind::Number),
            len,
        })
    } else if first == b'"' {
        let len = string_end(text)?;
        Some(Piece {
            kind: Some(TokenKind::Text),
            len,
        })
    } else {
        let len = symbol_len(text)?;
        Some(Piece {
            kind: Some(TokenKind::Symbol),
            len,
        })
    }
}
