//! Words and numbers.
ghost use Rattle.std.specs.Prelude.{◌≡◌, ◌≤◌, ◌<◌, ◌&&◌, ◌^◌, length, map, nat_le, slice_index, IfSome, List, ℕ, true};
ghost use Rattle.std.specs.Char.{is_ascii_digit};
ghost use Rattle.std.specs.List.{list_all, list_any, prefix_len};
ghost use Rattle.std.specs.Str.{str_eq_ignore_ascii_case};
ghost use Rattle.std.specs.Str.Parse.{digits_value};
ghost use Rattle.scope_lexer.specs.Begins as spec;
ghost use Rattle.scope_lexer.specs.Bytes as bytes;

use crate::byte::byte_at;
use crate::kind::TokenKind;

/// The largest number of a script.
const MAX_NUMBER: u64 = 9_223_372_036_854_775_807;

const KEYWORDS: [&[u8]; 31] = [
    b"EXTRACT",
    b"SELECT",
    b"PROCESS",
    b"REDUCE",
    b"COMBINE",
    b"OUTPUT",
    b"FROM",
    b"USING",
    b"TO",
    b"WHERE",
    b"GROUP",
    b"BY",
    b"HAVING",
    b"ORDER",
    b"ASC",
    b"DESC",
    b"DISTINCT",
    b"TOP",
    b"JOIN",
    b"INNER",
    b"ON",
    b"AS",
    b"PRESORT",
    b"PRODUCE",
    b"WITH",
    b"AND",
    b"OR",
    b"NOT",
    b"TRUE",
    b"FALSE",
    b"NULL",
];

/// Whether a word may begin with this byte.
pub(crate) fn is_letter(b: u8) -> bool
    ensures { result ≡ bytes.is_letter b }
{
    b.is_ascii_alphabetic() || b == b'_'
}

fn is_word_byte(b: u8) -> bool
    ensures { result ≡ bytes.is_word_byte b }
{
    is_letter(b) || b.is_ascii_digit()
}

/// How many bytes of the text's front a word can have.
pub(crate) fn word_len(text: &[u8]) -> usize
    ensures len { result ≡ prefix_len bytes.is_word_byte text.now }
    ensures within { result ≤ length text.now }
{
    let mut len = 0;
    while len < text.len() && is_word_byte(text[len]) {
        len += 1;
    }
    len
}

/// Whether the bytes are this word, in any ASCII case. A parser asks so for each keyword that it knows.
pub fn is_word(bytes: &[u8], word: &[u8]) -> bool
    ensures { result ≡ str_eq_ignore_ascii_case bytes.now word.now }
{
    bytes.eq_ignore_ascii_case(word)
}

fn is_among(mut words: &[&[u8]], word: &[u8]) -> bool
    ensures { result ≡ list_any (λ k. str_eq_ignore_ascii_case k word.now) (map (λ k. k.now) words.entry.now) }
{
    while let [first, rest @ ..] = words {
        if is_word(first, word) {
            return true;
        }
        words = rest;
    }
    false
}

#[tactic(auto, unfolding(crate::specs::Bytes::is_keyword, crate::specs::Bytes::keywords))]
fn is_keyword(word: &[u8]) -> bool
    ensures { result ≡ bytes.is_keyword word.now }
{
    is_among(&KEYWORDS, word)
}

/// A whole word is a keyword or a name.
pub(crate) fn word_kind(word: &[u8]) -> TokenKind
    ensures { result ≡ spec.word_kind word.now }
{
    if is_keyword(word) {
        TokenKind::Keyword
    } else {
        TokenKind::Name
    }
}

fn digits_len(text: &[u8]) -> usize
    ensures len { result ≡ prefix_len is_ascii_digit text.now }
    ensures within { result ≤ length text.now }
{
    let mut len = 0;
    while len < text.len() && text[len].is_ascii_digit() {
        len += 1;
    }
    len
}

/// The length of the number that the text begins with.
pub(crate) fn number_len(text: &[u8]) -> Option<usize>
    ensures len { result ≡ spec.number_len text.now }
    ensures within { IfSome result (λ len. len ≤ length text.now) }
{
    let len = digits_len(text);
    if is_letter(byte_at(text, len)) || value_of(&text[..len]).is_none() {
        None
    } else {
        Some(len)
    }
}

/// The value of digits, where a script may have it.
pub(crate) fn value_of(digits: &[u8]) -> Option<u64>
    requires { list_all is_ascii_digit digits.now ≡ true }
    ensures { result ≡ spec.small_value digits.now }
{
    let mut value: u64 = 0;
    for b in digits {
        let digit = (*b - b'0') as u64;
        if value > (MAX_NUMBER - digit) / 10 {
            return None;
        }
        value = value * 10 + digit;
    }
    Some(value)
}
