// How far the parser has come, and the steps that every production is made of. The productions stand in files of
// their own.
ghost use Rattle.std.specs.Prelude.{◌≡◌, map, length, Err, MatchOption, MatchResult, Ok};
ghost use Rattle.expression_syntax.specs.Lexemes as lexemes;
ghost use Rattle.expression_syntax.specs.Lexemes.{lexeme_of};
ghost use Rattle.expression_syntax.specs.Reading as spec;
ghost use Rattle.expression_syntax.specs.Reading.{Reads};

use crate::keyword::Keyword;
use crate::refusal::Refusal;
use crate::symbol::Symbol;
use crate::terminal::Terminal;
use scope_value::Cell;
use script_trees::RawAgg;
use sqlite_items::Items;
use std::alloc::Global;
use std::marker::Model;

/// A parser of the terminals of one statement. It has the aggregates that it has read, too. It stops at the first that no production takes.
#[derive(Drop)]
pub struct Parser<'a> {
    pub(crate) alloc: Global,
    pub(crate) rest: &'a [Terminal<'a>],
    pub(crate) aggs: Items<RawAgg>,
}

impl<'a> Model for Parser<'a> {
    ghost use Rattle.std.specs.Prelude.{map};
    ghost use Rattle.expression_syntax.specs.Lexemes.{lexeme_of};
    ghost use Rattle.expression_syntax.specs.Reading.{Cursor};
    ghost use Rattle.script_trees.specs.contracts.raw.RawExpr as e;
    ghost use Rattle.std.specs.Coded.{codes};

    ghost Value = { Cursor };

    ghost coded = { Prim.hlevel (codes, e.the_row.coded) };

    ghost view = { λ p. record { rest = map lexeme_of p.rest.now; aggs = p.aggs } };
}

/// Whether a terminal is this symbol.
pub(crate) fn is_symbol(terminal: &Terminal, symbol: Symbol) -> bool
    ensures { result ≡ lexemes.is_symbol symbol (lexeme_of terminal.now) }
{
    match terminal {
        Terminal::Symbol(s) => *s == symbol,
        _ => false,
    }
}

/// Whether a terminal is this keyword.
pub(crate) fn is_keyword(terminal: &Terminal, keyword: Keyword) -> bool
    ensures { result ≡ lexemes.is_keyword keyword (lexeme_of terminal.now) }
{
    match terminal {
        Terminal::Keyword(k) => *k == keyword,
        _ => false,
    }
}

/// What was read before, and what was read next, if that was read. A production that carries what it has read in this
/// way has it in one place where it stops.
pub fn beside<A: Drop, B: Drop>(before: A, next: Result<B, Refusal>) -> Result<(A, B), Refusal>
    ensures { MatchResult result (λ both. (both.0 ≡ before) × (next ≡ Ok both.1)) (λ refusal. next ≡ Err refusal) }
{
    match next {
        Ok(next) => Ok((before, next)),
        Err(refusal) => Err(refusal),
    }
}

impl<'a> Parser<'a> {
    /// A parser of these terminals, before the first.
    pub fn new(alloc: Global, terminals: &'a [Terminal<'a>]) -> Parser<'a>
        ensures { result ≡ spec.start (map lexeme_of terminals.entry.now) }
    {
        Parser {
            alloc,
            rest: terminals,
            aggs: Items::new(alloc),
        }
    }

    /// How many terminals are left.
    pub fn left(&self) -> usize
        ensures { result ≡ length self.now.rest }
    {
        self.rest.len()
    }

    /// Where memory comes from.
    pub fn alloc(&self) -> Global {
        self.alloc
    }

    /// The next terminal, which is taken.
    #[tactic(auto, unfolding(crate::specs::Reading::take_one))]
    pub fn take(&mut self) -> Option<Terminal<'a>>
        ensures { MatchOption result (spec.take_one self.old ≡ None) (λ t. spec.take_one self.old ≡ Some (lexeme_of t, self.new)) }
    {
        match self.rest {
            [] => None,
            [first, rest @ ..] => {
                self.rest = rest;
                Some(*first)
            }
        }
    }

    /// Takes the next terminal if it is this symbol, and says whether it was.
    #[tactic(auto, unfolding(crate::specs::Reading::eat))]
    pub fn eat(&mut self, symbol: Symbol) -> bool
        ensures { spec.eat (lexemes.is_symbol symbol) self.old ≡ Some (result, self.new) }
    {
        match self.rest {
            [first, rest @ ..] if is_symbol(first, symbol) => {
                self.rest = rest;
                true
            }
            _ => false,
        }
    }

    /// Takes the next terminal, which has to be this symbol.
    #[tactic(auto, unfolding(crate::specs::Reading::eat, crate::specs::Reading::expect))]
    pub fn expect(&mut self, symbol: Symbol) -> Result<(), Refusal>
        ensures { Reads (spec.expect (lexemes.is_symbol symbol) self.old) result self.new }
    {
        if self.eat(symbol) {
            Ok(())
        } else {
            Err(Refusal::Grammar)
        }
    }

    /// Takes a name.
    #[tactic(auto, unfolding(crate::specs::Reading::take_name))]
    pub fn name(&mut self) -> Result<Cell, Refusal>
        ensures { Reads (spec.take_name self.old) result self.new }
    {
        match self.take() {
            Some(Terminal::Name(bytes)) => Ok(Cell::from_slice(self.alloc, bytes)?),
            _ => Err(Refusal::Grammar),
        }
    }
}
