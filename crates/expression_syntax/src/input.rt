// Parts that several commands have: words, operators and what they are handed, columns, and sources.
ghost use Rattle.std.specs.Prelude.{◌≡◌, ◌∷◌, length, map};
ghost use Rattle.expression_syntax.specs.Lexemes as lexemes;
ghost use Rattle.expression_syntax.specs.Lexemes.{lexeme_of};
ghost use Rattle.expression_syntax.specs.Reading as reading;
ghost use Rattle.expression_syntax.specs.Reading.{Reads};
ghost use Rattle.expression_syntax.specs.ReadParts as spec;
ghost use Rattle.expression_syntax.specs.Parts as grammar;

use crate::keyword::Keyword;
use crate::list::Element;
use crate::parser::{Parser, is_keyword};
use crate::refusal::Refusal;
use crate::symbol::Symbol;
use crate::terminal::Terminal;
use crate::weak_keyword::{WeakKeyword, is_weak};
use scope_value::{Cell, ColType, Column};
use script_trees::{Call, Origin, Source};
use sqlite_items::Items;

/// Whether a terminal is a comma.
pub fn is_comma(terminal: &Terminal) -> bool
    ensures { result ≡ grammar.is_comma (lexeme_of terminal.now) }
{
    matches!(terminal, Terminal::Symbol(Symbol::Comma))
}

/// The type that a word names.
fn type_word(word: &[u8]) -> Option<ColType>
    ensures { result ≡ grammar.type_word word.now }
{
    if word == b"int".as_slice() {
        Some(ColType::Int)
    } else if word == b"long".as_slice() {
        Some(ColType::Long)
    } else if word == b"string".as_slice() {
        Some(ColType::Text)
    } else if word == b"bool".as_slice() {
        Some(ColType::Bool)
    } else {
        None
    }
}

impl Element for Cell {
    ghost use Rattle.expression_syntax.specs.ReadParts.{arg};
    ghost use Rattle.expression_syntax.specs.Parts.{is_comma};

    ghost reading = { arg };

    ghost separates = { is_comma };

    fn is_separator(terminal: &Terminal) -> bool {
        is_comma(terminal)
    }

    fn read<'a>(parser: &mut Parser<'a>) -> Result<Cell, Refusal> {
        parser.arg()
    }
}

impl Element for Column {
    ghost use Rattle.expression_syntax.specs.ReadParts.{column};
    ghost use Rattle.expression_syntax.specs.Parts.{is_comma};

    ghost reading = { column };

    ghost separates = { is_comma };

    fn is_separator(terminal: &Terminal) -> bool {
        is_comma(terminal)
    }

    fn read<'a>(parser: &mut Parser<'a>) -> Result<Column, Refusal> {
        parser.schema_column()
    }
}

impl<'a> Parser<'a> {
    /// Takes the next terminal if it is this keyword, and says whether it was.
    #[tactic(auto, unfolding(crate::specs::Reading::eat))]
    pub fn eat_word(&mut self, keyword: Keyword) -> bool
        ensures { spec.eat_word keyword self.old ≡ Some (result, self.new) }
    {
        match self.rest {
            [first, rest @ ..] if is_keyword(first, keyword) => {
                self.rest = rest;
                true
            }
            _ => false,
        }
    }

    /// Takes the next terminal, which has to be this keyword.
    #[tactic(auto, unfolding(crate::specs::Reading::eat, crate::specs::Reading::expect))]
    pub fn expect_word(&mut self, keyword: Keyword) -> Result<(), Refusal>
        ensures { Reads (spec.expect_word keyword self.old) result self.new }
    {
        if self.eat_word(keyword) {
            Ok(())
        } else {
            Err(Refusal::Grammar)
        }
    }

    /// Takes the next terminal if it is this word, and says whether it was.
    #[tactic(auto, unfolding(crate::specs::Reading::eat))]
    pub fn eat_weak(&mut self, word: WeakKeyword) -> bool
        ensures { spec.eat_weak word self.old ≡ Some (result, self.new) }
    {
        match self.rest {
            [first, rest @ ..] if is_weak(first, word) => {
                self.rest = rest;
                true
            }
            _ => false,
        }
    }

    /// Takes the next terminal, which has to be this word.
    #[tactic(auto, unfolding(crate::specs::Reading::eat, crate::specs::Reading::expect))]
    pub fn expect_weak(&mut self, word: WeakKeyword) -> Result<(), Refusal>
        ensures { Reads (spec.expect_weak word self.old) result self.new }
    {
        if self.eat_weak(word) {
            Ok(())
        } else {
            Err(Refusal::Grammar)
        }
    }

    /// A number behind a minus, as its digits with `-` before them.
    #[tactic(auto, unfolding(crate::specs::ReadParts::negative))]
    fn negative(&mut self) -> Result<Cell, Refusal>
        ensures { Reads (spec.negative self.old) result self.new }
    {
        match self.take() {
            Some(Terminal::Number(digits, _)) => {
                let mut bytes = Vec::from_slice(self.alloc, b"-".as_slice())?;
                bytes.extend_from_slice(digits)?;
                Ok(Cell::from_vec(bytes))
            }
            _ => Err(Refusal::Grammar),
        }
    }

    /// arg: a string, or a number with or without a minus.
    #[tactic(auto, unfolding(crate::specs::ReadParts::arg))]
    fn arg(&mut self) -> Result<Cell, Refusal>
        ensures { Reads (spec.arg self.old) result self.new }
    {
        match self.take() {
            Some(Terminal::Text(bytes)) => Ok(Cell::from_slice(self.alloc, bytes)?),
            Some(Terminal::Number(digits, _)) => Ok(Cell::from_slice(self.alloc, digits)?),
            Some(Terminal::Symbol(Symbol::Minus)) => self.negative(),
            _ => Err(Refusal::Grammar),
        }
    }

    /// Arguments and the closing bracket, of which the opening one was read.
    #[tactic(auto, unfolding(crate::specs::ReadParts::args))]
    fn args(&mut self) -> Result<Items<Cell>, Refusal>
        ensures { Reads (spec.args self.old) result self.new }
    {
        if self.eat(Symbol::Close) {
            return Ok(Items::new(self.alloc));
        }
        let args = self.list()?;
        self.expect(Symbol::Close)?;
        Ok(args)
    }

    /// op: an operator's name and its arguments.
    #[tactic(auto, unfolding(crate::specs::ReadParts::call, crate::specs::ReadParts::call_of))]
    pub fn op(&mut self) -> Result<Call, Refusal>
        ensures { Reads (spec.call self.old) result self.new }
    {
        let op = self.name()?;
        if self.eat(Symbol::Open) {
            let args = self.args()?;
            Ok(Call { op, args })
        } else {
            let args = Items::new(self.alloc);
            Ok(Call { op, args })
        }
    }

    /// The type behind a column's colon.
    #[tactic(auto, unfolding(crate::specs::ReadParts::typed_column))]
    fn type_behind(&mut self, name: Cell) -> Result<Column, Refusal>
        ensures { Reads (spec.typed_column name self.old) result self.new }
    {
        match self.take() {
            Some(Terminal::Name(word)) => match type_word(word) {
                Some(kind) => Ok(Column { name, kind }),
                None => Err(Refusal::Grammar),
            },
            _ => Err(Refusal::Grammar),
        }
    }

    /// col: a name and a type. A column without a type is a string.
    #[tactic(auto, unfolding(crate::specs::ReadParts::column, crate::specs::ReadParts::column_of))]
    fn schema_column(&mut self) -> Result<Column, Refusal>
        ensures { Reads (spec.column self.old) result self.new }
    {
        let name = self.name()?;
        if self.eat(Symbol::Colon) {
            self.type_behind(name)
        } else {
            let kind = ColType::Text;
            Ok(Column { name, kind })
        }
    }

    /// A stream that an extractor reads, of which the name was read.
    #[tactic(auto, unfolding(crate::specs::ReadParts::stream))]
    fn stream(&mut self, name: Cell) -> Result<Origin, Refusal>
        ensures { Reads (spec.stream name self.old) result self.new }
    {
        self.expect_word(Keyword::Using)?;
        let call = self.op()?;
        Ok(Origin::Stream(name, call))
    }

    /// What a source reads.
    #[tactic(auto, unfolding(crate::specs::ReadParts::origin))]
    fn origin(&mut self) -> Result<Origin, Refusal>
        ensures { Reads (spec.origin self.old) result self.new }
    {
        match self.take() {
            Some(Terminal::Name(name)) => {
                let name = Cell::from_slice(self.alloc, name)?;
                Ok(Origin::Named(name))
            }
            Some(Terminal::Text(name)) => {
                let name = Cell::from_slice(self.alloc, name)?;
                self.stream(name)
            }
            _ => Err(Refusal::Grammar),
        }
    }

    /// A name behind AS, where there is one.
    #[tactic(auto, unfolding(crate::specs::ReadParts::optional))]
    fn alias(&mut self) -> Result<Option<Cell>, Refusal>
        ensures { Reads (spec.alias self.old) result self.new }
    {
        if self.eat_word(Keyword::As) {
            let name = self.name()?;
            Ok(Some(name))
        } else {
            Ok(None)
        }
    }

    /// source: a name or a stream, and an alias.
    #[tactic(auto, unfolding(crate::specs::ReadParts::source))]
    pub fn source(&mut self) -> Result<Source, Refusal>
        ensures { Reads (spec.source self.old) result self.new }
    {
        let origin = self.origin()?;
        let alias = self.alias()?;
        Ok(Source { origin, alias })
    }

    /// A string.
    #[tactic(auto, unfolding(crate::specs::ReadParts::take_text))]
    pub fn text(&mut self) -> Result<Cell, Refusal>
        ensures { Reads (spec.take_text self.old) result self.new }
    {
        match self.take() {
            Some(Terminal::Text(bytes)) => Ok(Cell::from_slice(self.alloc, bytes)?),
            _ => Err(Refusal::Grammar),
        }
    }

    /// A source, where one is next.
    #[tactic(auto, unfolding(crate::specs::ReadParts::told))]
    pub fn source_if_any(&mut self) -> Result<Option<Source>, Refusal>
        ensures { Reads (spec.told spec.begins_source spec.source self.old) result self.new }
    {
        match self.rest {
            [Terminal::Name(_) | Terminal::Text(_), ..] => {
                let source = self.source()?;
                Ok(Some(source))
            }
            _ => Ok(None),
        }
    }

    /// A name, where one is next.
    #[tactic(auto, unfolding(crate::specs::ReadParts::told))]
    pub fn name_if_any(&mut self) -> Result<Option<Cell>, Refusal>
        ensures { Reads (spec.told spec.is_name reading.take_name self.old) result self.new }
    {
        match self.rest {
            [Terminal::Name(_), ..] => {
                let name = self.name()?;
                Ok(Some(name))
            }
            _ => Ok(None),
        }
    }
}
