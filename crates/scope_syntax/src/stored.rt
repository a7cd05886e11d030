// What is declared of a stored stream.
ghost use Rattle.expression_syntax.specs.Reading.{Reads};
ghost use Rattle.expression_syntax.specs.ReadParts.{list};
ghost use Rattle.scope_syntax.specs.ReadStored as spec;

use expression_syntax::{Element, Parser, Refusal, Symbol, WeakKeyword, beside};
use script_trees::{RawKey, RawStored};
use sqlite_items::Items;

/// A list in brackets.
#[tactic(auto, unfolding(crate::specs::ReadStored::bracketed))]
fn read_bracketed<T: Element>(parser: &mut Parser) -> Result<Items<T>, Refusal>
    ensures { Reads (spec.bracketed (list T.separates T.reading) parser.old) result parser.new }
{
    parser.expect(Symbol::Open)?;
    let items = parser.list::<T>()?;
    parser.expect(Symbol::Close)?;
    Ok(items)
}

/// The keys behind SORTED, where it is.
#[tactic(auto, unfolding(expression_syntax::specs::ReadParts::optional_weak))]
fn read_sorted(parser: &mut Parser) -> Result<Option<Items<RawKey>>, Refusal>
    ensures { Reads (spec.sorted parser.old) result parser.new }
{
    if parser.eat_weak(WeakKeyword::Sorted) {
        let keys = read_bracketed(parser)?;
        Ok(Some(keys))
    } else {
        Ok(None)
    }
}

/// What stands behind STORED.
#[tactic(auto, unfolding(crate::specs::ReadStored::declared))]
fn read_declared(parser: &mut Parser) -> Result<RawStored, Refusal>
    ensures { Reads (spec.declared parser.old) result parser.new }
{
    parser.expect_weak(WeakKeyword::Hash)?;
    let hash = read_bracketed(parser)?;
    let (hash, sorted) = beside(hash, read_sorted(parser))?;
    Ok(RawStored { hash, sorted })
}

/// stored, where it is.
#[tactic(auto, unfolding(expression_syntax::specs::ReadParts::optional_weak))]
pub(crate) fn read_stored(parser: &mut Parser) -> Result<Option<RawStored>, Refusal>
    ensures { Reads (spec.stored parser.old) result parser.new }
{
    if parser.eat_weak(WeakKeyword::Stored) {
        let stored = read_declared(parser)?;
        Ok(Some(stored))
    } else {
        Ok(None)
    }
}
