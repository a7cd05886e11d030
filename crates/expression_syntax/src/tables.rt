// How keywords and symbols are written.
ghost use Rattle.std.specs.Prelude.{◌≡◌, [], ◌∷◌, ◌++◌, map};
ghost use Rattle.scope_lexer.specs.Bytes as lexer;
ghost use Rattle.std.specs.Str.{bytes_eq, str_eq_ignore_ascii_case};
ghost use Rattle.expression_syntax.specs.Terminals as spec;
ghost use Rattle.expression_syntax.specs.Tables.{keyword_entries, symbol_entries};
ghost use Rattle.expression_syntax.specs.declared.keyword.Keyword.TheVariants.{Null};
ghost use Rattle.expression_syntax.specs.declared.symbol.Symbol.TheVariants.{Dot};

use crate::keyword::Keyword;
use crate::symbol::Symbol;
use scope_lexer::is_word;

const KEYWORDS: [(&[u8], Keyword); 31] = [
    (b"EXTRACT", Keyword::Extract),
    (b"SELECT", Keyword::Select),
    (b"PROCESS", Keyword::Process),
    (b"REDUCE", Keyword::Reduce),
    (b"COMBINE", Keyword::Combine),
    (b"OUTPUT", Keyword::Output),
    (b"FROM", Keyword::From),
    (b"USING", Keyword::Using),
    (b"TO", Keyword::To),
    (b"WHERE", Keyword::Where),
    (b"GROUP", Keyword::Group),
    (b"BY", Keyword::By),
    (b"HAVING", Keyword::Having),
    (b"ORDER", Keyword::Order),
    (b"ASC", Keyword::Asc),
    (b"DESC", Keyword::Desc),
    (b"DISTINCT", Keyword::Distinct),
    (b"TOP", Keyword::Top),
    (b"JOIN", Keyword::Join),
    (b"INNER", Keyword::Inner),
    (b"ON", Keyword::On),
    (b"AS", Keyword::As),
    (b"PRESORT", Keyword::Presort),
    (b"PRODUCE", Keyword::Produce),
    (b"WITH", Keyword::With),
    (b"AND", Keyword::And),
    (b"OR", Keyword::Or),
    (b"NOT", Keyword::Not),
    (b"TRUE", Keyword::True),
    (b"FALSE", Keyword::False),
    (b"NULL", Keyword::Null),
];

const SYMBOLS: [(&[u8], Symbol); 21] = [
    (b"=", Symbol::Is),
    (b"<", Symbol::Less),
    (b">", Symbol::Greater),
    (b"+", Symbol::Plus),
    (b"-", Symbol::Minus),
    (b"*", Symbol::Star),
    (b"/", Symbol::Slash),
    (b"%", Symbol::Percent),
    (b"!", Symbol::Bang),
    (b"(", Symbol::Open),
    (b")", Symbol::Close),
    (b",", Symbol::Comma),
    (b";", Symbol::Semicolon),
    (b":", Symbol::Colon),
    (b".", Symbol::Dot),
    (b"==", Symbol::Equal),
    (b"!=", Symbol::Unequal),
    (b"<=", Symbol::AtMost),
    (b">=", Symbol::AtLeast),
    (b"&&", Symbol::Both),
    (b"||", Symbol::Either),
];

fn keyword_in(mut table: &[(&[u8], Keyword)], bytes: &[u8]) -> Keyword
    ensures { result ≡ spec.looked_up (str_eq_ignore_ascii_case bytes.now) Null (keyword_entries table.entry.now) }
{
    while let [(word, keyword), rest @ ..] = table {
        if is_word(bytes, word) {
            return *keyword;
        }
        table = rest;
    }
    Keyword::Null
}

fn symbol_in(mut table: &[(&[u8], Symbol)], bytes: &[u8]) -> Symbol
    ensures { result ≡ spec.looked_up (bytes_eq bytes.now) Dot (symbol_entries table.entry.now) }
{
    while let [(mark, symbol), rest @ ..] = table {
        if bytes == *mark {
            return *symbol;
        }
        table = rest;
    }
    Symbol::Dot
}

/// The keyword that is written so, in any ASCII case.
#[tactic(auto, unfolding(crate::specs::Terminals::keyword_of, crate::specs::Terminals::keywords))]
pub(crate) fn keyword_of(bytes: &[u8]) -> Keyword
    ensures { result ≡ spec.keyword_of bytes.now }
{
    keyword_in(&KEYWORDS, bytes)
}

/// The symbol that is written so.
#[tactic(auto, unfolding(crate::specs::Terminals::symbol_of, crate::specs::Terminals::symbols))]
pub(crate) fn symbol_of(bytes: &[u8]) -> Symbol
    ensures { result ≡ spec.symbol_of bytes.now }
{
    symbol_in(&SYMBOLS, bytes)
}

/// The keywords and symbols of the grammar are those of the lexer. The function does nothing when it runs.
#[tactic(auto, unfolding(crate::specs::Terminals::keywords, crate::specs::Terminals::symbols, scope_lexer::specs::Bytes::keywords))]
pub fn written_law()
    ensures keywords { spec.written spec.keywords ≡ lexer.keywords }
    ensures symbols { spec.written spec.symbols ≡ map (λ b. b ∷ []) lexer.short_symbols ++ lexer.long_symbols }
{}
