// What a SELECT lists, read.
ghost use Rattle.std.specs.Prelude.{◌≡◌, length, map};
ghost use Rattle.expression_syntax.specs.Lexemes.{lexeme_of};
ghost use Rattle.expression_syntax.specs.Reading.{Reads};
ghost use Rattle.expression_syntax.specs.ReadItems as spec;

use crate::input::is_comma;
use crate::keyword::Keyword;
use crate::level::Place;
use crate::list::Element;
use crate::parser::Parser;
use crate::refusal::Refusal;
use crate::symbol::Symbol;
use crate::terminal::Terminal;
use script_trees::{Item, Items, RawAgg, RawExpr};
use sqlite_items::Items as Sequence;

impl Element for Item {
    ghost use Rattle.expression_syntax.specs.ReadItems.{item};
    ghost use Rattle.expression_syntax.specs.Parts.{is_comma};

    ghost reading = { item };

    ghost separates = { is_comma };

    fn is_separator(terminal: &Terminal) -> bool {
        is_comma(terminal)
    }

    fn read<'a>(parser: &mut Parser<'a>) -> Result<Item, Refusal> {
        parser.item()
    }
}

impl<'a> Parser<'a> {
    /// The name behind AS.
    #[tactic(auto, unfolding(crate::specs::ReadItems::named))]
    fn item_name(&mut self, expr: RawExpr) -> Result<Item, Refusal>
        ensures { Reads (spec.named expr self.old) result self.new }
    {
        let name = self.name()?;
        Ok(Item { expr, name })
    }

    /// A column that is an item of its own name.
    fn column_item(&mut self) -> Result<Item, Refusal>
        ensures { Reads (spec.column_item self.old) result self.new }
    {
        let column = self.reference()?;
        let name = column.name.copy()?;
        let expr = RawExpr::Ref(column);
        Ok(Item { expr, name })
    }

    /// An item without AS, which has to be a column: what was read as an expression, from `before` on and behind so
    /// many aggregates, is read anew.
    #[tactic(auto, unfolding(crate::specs::ReadItems::bare))]
    fn bare_item(&mut self, before: &'a [Terminal<'a>], aggs: usize) -> Result<Item, Refusal>
        ensures { Reads (spec.bare (map lexeme_of before.entry.now) aggs self.old) result self.new }
    {
        if self.aggs.len() != aggs {
            return Err(Refusal::Grammar);
        }
        self.rest = before;
        self.column_item()
    }

    /// item: a column, or an expression and its name.
    #[tactic(auto, unfolding(crate::specs::ReadItems::item, crate::specs::ReadItems::item_behind))]
    fn item(&mut self) -> Result<Item, Refusal>
        ensures { Reads (spec.item self.old) result self.new }
    {
        let before = self.rest;
        let aggs = self.aggs.len();
        let expr = self.expression(Place::Item)?;
        if self.eat_word(Keyword::As) {
            self.item_name(expr)
        } else {
            self.bare_item(before, aggs)
        }
    }

    /// items: all columns, or those that are listed.
    #[tactic(auto, unfolding(crate::specs::ReadItems::items))]
    pub fn items(&mut self) -> Result<Items, Refusal>
        ensures { Reads (spec.items self.old) result self.new }
    {
        if self.eat(Symbol::Star) {
            return Ok(Items::All);
        }
        let items = self.list()?;
        Ok(Items::Listed(items))
    }

    /// The aggregates so far. None are left.
    #[tactic(auto, unfolding(crate::specs::ReadItems::take_aggs))]
    pub fn take_aggs(&mut self) -> Sequence<RawAgg>
        ensures { spec.take_aggs self.old ≡ Some (result, self.new) }
    {
        std::mem::replace(&mut self.aggs, Sequence::new(self.alloc))
    }
}
