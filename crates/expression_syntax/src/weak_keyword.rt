// Words that are keywords where the grammar asks for them, and names elsewhere.
ghost use Rattle.std.specs.Prelude.{◌≡◌};
ghost use Rattle.expression_syntax.specs.Lexemes as lexemes;
ghost use Rattle.expression_syntax.specs.Lexemes.{lexeme_of};

use crate::terminal::Terminal;
use scope_lexer::is_word;

/// A word that is written in any ASCII case, and is a name like any other where the grammar doesn't ask for it.
#[derive(Clone, Copy)]
pub enum WeakKeyword {
    Stored,
    Hash,
    Sorted,
    Left,
    Right,
    Full,
    Outer,
}

/// Whether a name is this word.
fn is_written(name: &[u8], word: WeakKeyword) -> bool
    ensures { result ≡ lexemes.is_written word name.now }
{
    match word {
        WeakKeyword::Stored => is_word(name, b"STORED"),
        WeakKeyword::Hash => is_word(name, b"HASH"),
        WeakKeyword::Sorted => is_word(name, b"SORTED"),
        WeakKeyword::Left => is_word(name, b"LEFT"),
        WeakKeyword::Right => is_word(name, b"RIGHT"),
        WeakKeyword::Full => is_word(name, b"FULL"),
        WeakKeyword::Outer => is_word(name, b"OUTER"),
    }
}

/// Whether a terminal is this word.
pub(crate) fn is_weak(terminal: &Terminal, word: WeakKeyword) -> bool
    ensures { result ≡ lexemes.is_weak word (lexeme_of terminal.now) }
{
    match terminal {
        Terminal::Name(name) => is_written(name, word),
        _ => false,
    }
}
