//! Operators and marks.
ghost use Rattle.std.specs.Prelude.{◌≡◌, ◌≤◌, length, IfSome};
ghost use Rattle.scope_lexer.specs.Begins as spec;

/// The length of the symbol that the text begins with, the longest first.
pub(crate) fn symbol_len(text: &[u8]) -> Option<usize>
    ensures len { result ≡ spec.symbol_len text.now }
    ensures within { IfSome result (λ len. (1 ≤ len) × (len ≤ length text.now)) }
{
    match text {
        [b'=' | b'!' | b'<' | b'>', b'=', ..] | [b'&', b'&', ..] | [b'|', b'|', ..] => Some(2),
        [
            b'='
            | b'<'
            | b'>'
            | b'+'
            | b'-'
            | b'*'
            | b'/'
            | b'%'
            | b'!'
            | b'('
            | b')'
            | b','
            | b';'
            | b':'
            | b'.',
            ..
        ] => Some(1),
        _ => None,
    }
}
