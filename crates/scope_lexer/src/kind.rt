//! What a token can be.

/// The kind of a token.
#[derive(Clone, Copy, Debug, PartialEq, Eq)]
pub enum TokenKind {
    /// An ASCII letter or `_`, then letters, digits and `_`, that is no keyword.
    Name,
    /// One of the reserved words, in any ASCII case.
    Keyword,
    /// Decimal digits, of a value up to 9223372036854775807. Zeros may stand first.
    Number,
    /// A string with its quotes.
    Text,
    /// An operator or a mark, of one byte or two.
    Symbol,
}
