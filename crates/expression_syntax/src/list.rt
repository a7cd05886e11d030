// Lists: what several productions have, an element and further ones behind separators.
ghost use Rattle.std.specs.Prelude.{◌≡◌, Bool};
ghost use Rattle.expression_syntax.specs.Lexemes.{Lexeme, lexeme_of};
ghost use Rattle.expression_syntax.specs.Reading as reading;
ghost use Rattle.expression_syntax.specs.Reading.{Parser as Reading, Reads};
ghost use Rattle.expression_syntax.specs.ReadParts as spec;

use crate::parser::Parser;
use crate::refusal::Refusal;
use crate::terminal::Terminal;
use sqlite_items::Items;

/// What stands in lists. Each type stands in one kind of list.
pub trait Element: Sized + Drop {
    ghost reading: { Reading Self };

    ghost separates: { Lexeme → Bool };

    /// Whether a terminal stands between two of them.
    fn is_separator(terminal: &Terminal) -> bool
        ensures { result ≡ separates (lexeme_of terminal.now) };

    /// Reads one.
    fn read<'a>(parser: &mut Parser<'a>) -> Result<Self, Refusal>
        ensures { Reads (reading parser.old) result parser.new };
}

impl<'a> Parser<'a> {
    /// Takes a separator if one is next, and says whether it did.
    #[tactic(auto, unfolding(crate::specs::Reading::eat))]
    fn separator<T: Element>(&mut self) -> bool
        ensures { reading.eat T.separates self.old ≡ Some (result, self.new) }
    {
        match self.rest {
            [first, rest @ ..] if T::is_separator(first) => {
                self.rest = rest;
                true
            }
            _ => false,
        }
    }

    /// An element and further ones, each behind a separator.
    #[tactic(auto, using(crate::proofs::Further::further_once, crate::proofs::Further::further_none), unfolding(crate::specs::ReadParts::list))]
    pub fn list<T: Element>(&mut self) -> Result<Items<T>, Refusal>
        ensures { Reads (spec.list T.separates T.reading self.old) result self.new }
    {
        let turns = self.rest.len();
        let first = T::read(self)?;
        let mut items = Items::new(self.alloc);
        items.push(first)?;
        for _ in 0..turns {
            if !self.separator::<T>() {
                return Ok(items);
            }
            items.push(T::read(self)?)?;
        }
        Ok(items)
    }
}
