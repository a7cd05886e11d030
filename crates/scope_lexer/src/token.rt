//! One token of a text. It is a place, and the text keeps its bytes.

use crate::kind::TokenKind;

/// A token: its kind, and where its bytes stand in the text.
#[derive(Clone, Copy, Debug, PartialEq, Eq)]
pub struct Token {
    /// What it is.
    pub kind: TokenKind,
    /// The place of its first byte, counted from 0.
    pub from: u32,
    /// The place behind its last byte.
    pub to: u32,
}
