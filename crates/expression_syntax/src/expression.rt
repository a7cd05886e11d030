// Expressions, production by production. A depth is handed down from call to call, so that no text can exhaust the
// stack.
ghost use Rattle.std.specs.Prelude.{◌≡◌, ◌≤◌, ◌+◌, IfOk, length, map, take, drop};
ghost use Rattle.expression_syntax.specs.Expressions as grammar;
ghost use Rattle.expression_syntax.specs.Lexemes.{lexeme_of};
ghost use Rattle.expression_syntax.specs.Reading as reading;
ghost use Rattle.expression_syntax.specs.Reading.{Reads};
ghost use Rattle.expression_syntax.specs.ReadExpressions as spec;

use crate::keyword::Keyword;
use crate::level::{Level, Place};
use crate::parser::{Parser, beside};
use crate::refusal::Refusal;
use crate::symbol::Symbol;
use crate::terminal::Terminal;
use scope_value::{Cell, Value};
use script_trees::{AggKind, PairOp, RawAgg, RawExpr, RawRef};
use sqlite_items::Boxed;
use std::alloc::{AllocError, Global};

/// The level of an operator's operands.
fn tighter(level: Level) -> Level
    ensures { result ≡ grammar.tighter level }
{
    match level {
        Level::Or => Level::And,
        Level::And => Level::Compare,
        Level::Compare => Level::Sum,
        Level::Sum => Level::Product,
        Level::Product => Level::Unary,
        Level::Unary | Level::Primary => Level::Primary,
    }
}

/// The operator that a symbol is, and the level at which it joins operands.
fn symbol_joins(symbol: Symbol) -> Option<(Level, PairOp)>
    ensures { result ≡ grammar.symbol_joins symbol }
{
    match symbol {
        Symbol::Either => Some((Level::Or, PairOp::Or)),
        Symbol::Both => Some((Level::And, PairOp::And)),
        Symbol::Equal => Some((Level::Compare, PairOp::Eq)),
        Symbol::Unequal => Some((Level::Compare, PairOp::Ne)),
        Symbol::Less => Some((Level::Compare, PairOp::Lt)),
        Symbol::AtMost => Some((Level::Compare, PairOp::Le)),
        Symbol::Greater => Some((Level::Compare, PairOp::Gt)),
        Symbol::AtLeast => Some((Level::Compare, PairOp::Ge)),
        Symbol::Plus => Some((Level::Sum, PairOp::Add)),
        Symbol::Minus => Some((Level::Sum, PairOp::Sub)),
        Symbol::Star => Some((Level::Product, PairOp::Mul)),
        Symbol::Slash => Some((Level::Product, PairOp::Div)),
        Symbol::Percent => Some((Level::Product, PairOp::Rem)),
        _ => None,
    }
}

/// The same of a terminal.
fn joins(terminal: &Terminal) -> Option<(Level, PairOp)>
    ensures { result ≡ grammar.joins (lexeme_of terminal.now) }
{
    match terminal {
        Terminal::Symbol(s) => symbol_joins(*s),
        Terminal::Keyword(Keyword::Or) => Some((Level::Or, PairOp::Or)),
        Terminal::Keyword(Keyword::And) => Some((Level::And, PairOp::And)),
        _ => None,
    }
}

/// The operator that a terminal is at a level.
fn operator(level: Level, terminal: &Terminal) -> Option<PairOp>
    ensures { result ≡ spec.if_of level (grammar.joins (lexeme_of terminal.now)) }
{
    match joins(terminal) {
        Some((at, op)) if at == level => Some(op),
        _ => None,
    }
}

fn negates(terminal: &Terminal) -> bool
    ensures { result ≡ grammar.negates (lexeme_of terminal.now) }
{
    matches!(
        terminal,
        Terminal::Symbol(Symbol::Bang) | Terminal::Keyword(Keyword::Not)
    )
}

/// The aggregate of a name.
fn aggregate(name: &[u8]) -> Option<AggKind>
    ensures { result ≡ grammar.aggregate name.now }
{
    if name.eq_ignore_ascii_case(b"COUNT") {
        Some(AggKind::Count)
    } else if name.eq_ignore_ascii_case(b"COUNTIF") {
        Some(AggKind::CountIf)
    } else if name.eq_ignore_ascii_case(b"SUM") {
        Some(AggKind::Sum)
    } else if name.eq_ignore_ascii_case(b"MIN") {
        Some(AggKind::Min)
    } else if name.eq_ignore_ascii_case(b"MAX") {
        Some(AggKind::Max)
    } else {
        None
    }
}

fn pair(alloc: Global, op: PairOp, a: RawExpr, b: RawExpr) -> Result<RawExpr, AllocError>
    ensures { IfOk result (λ e. e ≡ RawExpr.Pair op a b) }
{
    Ok(RawExpr::Pair(op, Boxed::new(alloc, a)?, Boxed::new(alloc, b)?))
}

/// As deep as an expression of 200 terminals can nest: each level once for each of them, and one.
const MAX_DEPTH: usize = 1407;

/// The most terminals that an expression may have.
const MAX_EXPRESSION: usize = 200;

/// The terminals that an expression may have, and one more.
fn front<'a>(all: &'a [Terminal<'a>]) -> &'a [Terminal<'a>]
    ensures { map lexeme_of result.now ≡ take (grammar.max_expression + 1) (map lexeme_of all.now) }
{
    if all.len() > MAX_EXPRESSION {
        &all[..MAX_EXPRESSION + 1]
    } else {
        all
    }
}

/// What comes behind the first terminals.
#[tactic(auto, using(crate::proofs::Parts::behind_is))]
fn behind<'a>(all: &'a [Terminal<'a>], used: usize) -> &'a [Terminal<'a>]
    requires { used ≤ length all.now }
    ensures { map lexeme_of result.now ≡ drop used (map lexeme_of all.now) }
{
    &all[used..]
}

impl<'a> Parser<'a> {
    /// Takes an operator of a level if one is next.
    #[tactic(auto, unfolding(crate::specs::ReadExpressions::take_operator))]
    fn operator(&mut self, level: Level) -> Option<PairOp>
        ensures { spec.take_operator level self.old ≡ Some (result, self.new) }
    {
        match self.rest {
            [] => None,
            [first, rest @ ..] => {
                let op = operator(level, first);
                if op.is_some() {
                    self.rest = rest;
                }
                op
            }
        }
    }

    /// Takes a `!` or NOT if one is next, and says whether it did.
    #[tactic(auto, unfolding(crate::specs::Reading::eat))]
    fn negation(&mut self) -> bool
        ensures { reading.eat grammar.negates self.old ≡ Some (result, self.new) }
    {
        match self.rest {
            [first, rest @ ..] if negates(first) => {
                self.rest = rest;
                true
            }
            _ => false,
        }
    }

    /// A column, of which the first name was read.
    #[tactic(auto, unfolding(crate::specs::ReadExpressions::column))]
    pub(crate) fn column(&mut self, first: Cell) -> Result<RawRef, Refusal>
        ensures { Reads (spec.column first self.old) result self.new }
    {
        if self.eat(Symbol::Dot) {
            let name = self.name()?;
            Ok(RawRef {
                alias: Some(first),
                name,
            })
        } else {
            Ok(RawRef {
                alias: None,
                name: first,
            })
        }
    }

    /// Adds an aggregate, which gets the next number.
    #[tactic(auto, unfolding(crate::specs::ReadExpressions::push))]
    fn push(&mut self, agg: RawAgg) -> Result<RawExpr, Refusal>
        ensures { Reads (spec.push agg self.old) result self.new }
    {
        let Ok(number) = u32::try_from(self.aggs.len()) else {
            return Err(Refusal::Grammar);
        };
        self.aggs.push(agg)?;
        Ok(RawExpr::Agg(number))
    }

    /// The literal that a terminal is.
    fn literal(&self, terminal: Terminal<'a>) -> Result<RawExpr, Refusal>
        ensures { Reads (spec.found (grammar.literal (lexeme_of terminal.entry)) self.now) result self.now }
    {
        let value = match terminal {
            Terminal::Number(_, n) => Value::Int(n),
            Terminal::Text(bytes) => Value::Bytes(Cell::from_slice(self.alloc, bytes)?),
            Terminal::Keyword(Keyword::True) => Value::Bool(true),
            Terminal::Keyword(Keyword::False) => Value::Bool(false),
            Terminal::Keyword(Keyword::Null) => Value::Null,
            _ => return Err(Refusal::Grammar),
        };
        Ok(RawExpr::Literal(value))
    }

    /// An expression of a level. Every production hands on a depth that is one less.
    #[cycle(expression)]
    #[tactic(auto, using(crate::proofs::Depth::read_deeper, crate::proofs::Depth::read_none))]
    fn level(&mut self, depth: usize, level: Level, place: Place) -> Result<RawExpr, Refusal>
        ensures { Reads (spec.read depth level place self.old) result self.new }
    {
        if depth == 0 {
            return Err(Refusal::Grammar);
        }
        match level {
            Level::Compare => self.comparison(depth - 1, place),
            Level::Unary => self.unary(depth - 1, place),
            Level::Primary => self.primary(depth - 1, place),
            _ => self.chain(depth - 1, level, place),
        }
    }

    /// expr, and, sum, product: operands with operators of the level between them, which group to the left.
    #[cycle(expression)]
    #[tactic(auto, using(crate::proofs::Depth::more_once, crate::proofs::Depth::more_none), unfolding(crate::specs::ReadExpressions::chain))]
    fn chain(&mut self, depth: usize, level: Level, place: Place) -> Result<RawExpr, Refusal>
        ensures { Reads (spec.chain (spec.read depth) level place self.old) result self.new }
    {
        let turns = self.rest.len();
        let mut left = self.level(depth, tighter(level), place)?;
        for _ in 0..turns {
            let Some(op) = self.operator(level) else {
                return Ok(left);
            };
            let (before, right) = beside(left, self.level(depth, tighter(level), place))?;
            left = pair(self.alloc, op, before, right)?;
        }
        Ok(left)
    }

    /// cmp: a sum, or two with a comparison between them.
    #[cycle(expression)]
    #[tactic(auto, unfolding(crate::specs::ReadExpressions::comparison))]
    fn comparison(&mut self, depth: usize, place: Place) -> Result<RawExpr, Refusal>
        ensures { Reads (spec.comparison (spec.read depth) place self.old) result self.new }
    {
        let left = self.level(depth, Level::Sum, place)?;
        let Some(op) = self.operator(Level::Compare) else {
            return Ok(left);
        };
        let (left, right) = beside(left, self.level(depth, Level::Sum, place))?;
        Ok(pair(self.alloc, op, left, right)?)
    }

    /// unary: a primary behind any number of signs and negations.
    #[cycle(expression)]
    #[tactic(auto, unfolding(crate::specs::ReadExpressions::unary))]
    fn unary(&mut self, depth: usize, place: Place) -> Result<RawExpr, Refusal>
        ensures { Reads (spec.unary (spec.read depth) place self.old) result self.new }
    {
        if self.eat(Symbol::Minus) {
            let inner = self.level(depth, Level::Unary, place)?;
            Ok(RawExpr::Neg(Boxed::new(self.alloc, inner)?))
        } else if self.negation() {
            let inner = self.level(depth, Level::Unary, place)?;
            Ok(RawExpr::Not(Boxed::new(self.alloc, inner)?))
        } else {
            self.level(depth, Level::Primary, place)
        }
    }

    /// An expression and the closing bracket, of which the opening one was read.
    #[cycle(expression)]
    #[tactic(auto, unfolding(crate::specs::ReadExpressions::bracketed))]
    fn bracketed(&mut self, depth: usize, level: Level, place: Place) -> Result<RawExpr, Refusal>
        ensures { Reads (spec.bracketed (spec.read depth) level place self.old) result self.new }
    {
        let inner = self.level(depth, level, place)?;
        self.expect(Symbol::Close)?;
        Ok(inner)
    }

    /// The argument of an aggregate, and the closing bracket.
    #[cycle(expression)]
    #[tactic(auto, unfolding(crate::specs::ReadExpressions::argument))]
    fn argument(&mut self, depth: usize, kind: AggKind) -> Result<RawExpr, Refusal>
        ensures { Reads (spec.argument (spec.read depth) kind self.old) result self.new }
    {
        let arg = self.bracketed(depth, Level::Or, Place::Plain)?;
        self.push(RawAgg {
            kind,
            arg: Some(arg),
        })
    }

    /// What COUNT counts, and the closing bracket.
    #[cycle(expression)]
    #[tactic(auto, unfolding(crate::specs::ReadExpressions::rows))]
    fn rows(&mut self, depth: usize) -> Result<RawExpr, Refusal>
        ensures { Reads (spec.rows (spec.read depth) self.old) result self.new }
    {
        if !self.eat(Symbol::Star) {
            return self.argument(depth, AggKind::Count);
        }
        self.expect(Symbol::Close)?;
        self.push(RawAgg {
            kind: AggKind::Count,
            arg: None,
        })
    }

    /// agg, behind its opening bracket.
    #[cycle(expression)]
    fn call(
        &mut self,
        depth: usize,
        place: Place,
        kind: Option<AggKind>,
    ) -> Result<RawExpr, Refusal>
        ensures { Reads (spec.call (spec.read depth) place kind self.old) result self.new }
    {
        match (place, kind) {
            (Place::Item, Some(AggKind::Count)) => self.rows(depth),
            (Place::Item, Some(kind)) => self.argument(depth, kind),
            _ => Err(Refusal::Grammar),
        }
    }

    /// A column or an aggregate, of which the first name was read.
    #[cycle(expression)]
    #[tactic(auto, unfolding(crate::specs::ReadExpressions::named))]
    fn named(&mut self, depth: usize, place: Place, first: &[u8]) -> Result<RawExpr, Refusal>
        ensures { Reads (spec.named (spec.read depth) place first.now self.old) result self.new }
    {
        if self.eat(Symbol::Open) {
            return self.call(depth, place, aggregate(first));
        }
        let first = Cell::from_slice(self.alloc, first)?;
        Ok(RawExpr::Ref(self.column(first)?))
    }

    /// primary: a literal, a column, an aggregate, or an expression in brackets.
    #[cycle(expression)]
    #[tactic(auto, unfolding(crate::specs::ReadExpressions::primary))]
    fn primary(&mut self, depth: usize, place: Place) -> Result<RawExpr, Refusal>
        ensures { Reads (spec.primary (spec.read depth) place self.old) result self.new }
    {
        match self.take() {
            None => Err(Refusal::Grammar),
            Some(Terminal::Symbol(Symbol::Open)) => self.bracketed(depth, Level::Or, place),
            Some(Terminal::Name(first)) => self.named(depth, place, first),
            Some(other) => self.literal(other),
        }
    }

    /// Hides all but the terminals that an expression may have, and one more. Answers what was ahead.
    #[tactic(auto, unfolding(crate::specs::ReadExpressions::narrowed))]
    fn narrow(&mut self) -> &'a [Terminal<'a>]
        ensures all { map lexeme_of result.now ≡ self.old.rest }
        ensures narrowed { self.new ≡ spec.narrowed self.old }
    {
        let all = self.rest;
        self.rest = front(all);
        all
    }

    /// Goes on behind what was read of an expression, all of which was ahead, if that is no longer than it may be.
    #[tactic(auto, unfolding(crate::specs::ReadExpressions::widen))]
    fn widen(&mut self, all: &'a [Terminal<'a>]) -> Result<(), Refusal>
        ensures { Reads (spec.widen (map lexeme_of all.entry.now) self.old) result self.new }
    {
        let used = all
            .len()
            .min(MAX_EXPRESSION + 1)
            .saturating_sub(self.rest.len());
        if used > MAX_EXPRESSION {
            return Err(Refusal::Grammar);
        }
        self.rest = behind(all, used);
        Ok(())
    }

    /// A whole expression, of an item, of WHERE or of HAVING.
    #[tactic(auto, unfolding(crate::specs::ReadExpressions::whole))]
    pub fn expression(&mut self, place: Place) -> Result<RawExpr, Refusal>
        ensures { Reads (spec.whole place self.old) result self.new }
    {
        let all = self.narrow();
        let found = self.level(MAX_DEPTH, Level::Or, place)?;
        self.widen(all)?;
        Ok(found)
    }
}
