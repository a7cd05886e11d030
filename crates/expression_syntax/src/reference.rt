// Columns that commands name: references, keys to sort by, and equalities.
ghost use Rattle.std.specs.Prelude.{◌≡◌};
ghost use Rattle.expression_syntax.specs.Lexemes.{lexeme_of};
ghost use Rattle.expression_syntax.specs.Reading.{Reads};
ghost use Rattle.expression_syntax.specs.ReadParts as spec;
ghost use Rattle.expression_syntax.specs.Parts as grammar;

use crate::input::is_comma;
use crate::keyword::Keyword;
use crate::list::Element;
use crate::parser::Parser;
use crate::refusal::Refusal;
use crate::symbol::Symbol;
use crate::terminal::Terminal;
use script_trees::{RawKey, RawRef, RefPair};

/// Whether a terminal is AND or `&&`.
fn is_and(terminal: &Terminal) -> bool
    ensures { result ≡ grammar.is_and (lexeme_of terminal.now) }
{
    matches!(
        terminal,
        Terminal::Keyword(Keyword::And) | Terminal::Symbol(Symbol::Both)
    )
}

impl Element for RawRef {
    ghost use Rattle.expression_syntax.specs.ReadParts.{reference};
    ghost use Rattle.expression_syntax.specs.Parts.{is_comma};

    ghost reading = { reference };

    ghost separates = { is_comma };

    fn is_separator(terminal: &Terminal) -> bool {
        is_comma(terminal)
    }

    fn read<'a>(parser: &mut Parser<'a>) -> Result<RawRef, Refusal> {
        parser.reference()
    }
}

impl Element for RawKey {
    ghost use Rattle.expression_syntax.specs.ReadParts.{key};
    ghost use Rattle.expression_syntax.specs.Parts.{is_comma};

    ghost reading = { key };

    ghost separates = { is_comma };

    fn is_separator(terminal: &Terminal) -> bool {
        is_comma(terminal)
    }

    fn read<'a>(parser: &mut Parser<'a>) -> Result<RawKey, Refusal> {
        parser.key()
    }
}

impl Element for RefPair {
    ghost use Rattle.expression_syntax.specs.ReadParts.{equality};
    ghost use Rattle.expression_syntax.specs.Parts.{is_and};

    ghost reading = { equality };

    ghost separates = { is_and };

    fn is_separator(terminal: &Terminal) -> bool {
        is_and(terminal)
    }

    fn read<'a>(parser: &mut Parser<'a>) -> Result<RefPair, Refusal> {
        parser.equality()
    }
}

impl<'a> Parser<'a> {
    /// ref: a column's name, with or without an alias.
    #[tactic(auto, unfolding(crate::specs::ReadParts::reference))]
    pub(crate) fn reference(&mut self) -> Result<RawRef, Refusal>
        ensures { Reads (spec.reference self.old) result self.new }
    {
        let first = self.name()?;
        self.column(first)
    }

    /// A column, and DESC or nothing.
    #[tactic(auto, unfolding(crate::specs::ReadParts::down))]
    fn down(&mut self, column: RawRef) -> Result<RawKey, Refusal>
        ensures { Reads (spec.down column self.old) result self.new }
    {
        let down = self.eat_word(Keyword::Desc);
        Ok(RawKey { column, down })
    }

    /// A column, and ASC, DESC or nothing.
    #[tactic(auto, unfolding(crate::specs::ReadParts::key))]
    fn key(&mut self) -> Result<RawKey, Refusal>
        ensures { Reads (spec.key self.old) result self.new }
    {
        let column = self.reference()?;
        if self.eat_word(Keyword::Asc) {
            let down = false;
            Ok(RawKey { column, down })
        } else {
            self.down(column)
        }
    }

    /// Two columns with `==` between them.
    #[tactic(auto, unfolding(crate::specs::ReadParts::equality))]
    fn equality(&mut self) -> Result<RefPair, Refusal>
        ensures { Reads (spec.equality self.old) result self.new }
    {
        let left = self.reference()?;
        self.expect(Symbol::Equal)?;
        let right = self.reference()?;
        Ok((left, right))
    }
}
