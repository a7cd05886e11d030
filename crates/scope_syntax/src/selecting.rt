// SELECT, clause by clause.
ghost use Rattle.std.specs.Prelude.{◌≡◌, IfOk, Some};
ghost use Rattle.expression_syntax.specs.Reading.{Reads};
ghost use Rattle.scope_syntax.specs.ReadSelect as spec;

use expression_syntax::{Keyword, Parser, Place, Refusal, Terminal, WeakKeyword, beside};
use script_trees::{Items, JoinSide, Joined, RawAgg, RawExpr, RawKey, RawRef, Select, Source};
use sqlite_items::Items as Sequence;
use std::alloc::{AllocError, Global};

/// The number behind TOP.
#[tactic(auto, unfolding(crate::specs::ReadSelect::count))]
fn read_count(parser: &mut Parser) -> Result<u64, Refusal>
    ensures { Reads (spec.count parser.old) result parser.new }
{
    match parser.take() {
        Some(Terminal::Number(_, n)) if n >= 0 => Ok(n as u64),
        _ => Err(Refusal::Grammar),
    }
}

/// TOP and its number, where they are.
#[tactic(auto, unfolding(expression_syntax::specs::ReadParts::optional))]
fn read_top(parser: &mut Parser) -> Result<Option<u64>, Refusal>
    ensures { Reads (spec.top parser.old) result parser.new }
{
    if parser.eat_word(Keyword::Top) {
        let n = read_count(parser)?;
        Ok(Some(n))
    } else {
        Ok(None)
    }
}

/// JOIN with or without INNER before it, and whether it was there.
#[tactic(auto, unfolding(crate::specs::ReadSelect::join_word))]
fn read_join_word(parser: &mut Parser) -> Result<bool, Refusal>
    ensures { Reads (spec.join_word parser.old) result parser.new }
{
    if parser.eat_word(Keyword::Inner) {
        parser.expect_word(Keyword::Join)?;
        Ok(true)
    } else {
        Ok(parser.eat_word(Keyword::Join))
    }
}

/// A source that is joined by a side, and its equalities, behind JOIN.
#[tactic(auto, unfolding(crate::specs::ReadSelect::joined))]
fn read_joined(parser: &mut Parser, side: JoinSide) -> Result<Joined, Refusal>
    ensures { Reads (spec.joined side parser.old) result parser.new }
{
    let source = parser.source()?;
    let (source, ()) = beside(source, parser.expect_word(Keyword::On))?;
    let (source, on) = beside(source, parser.list())?;
    Ok(Joined { source, side, on })
}

/// The first source of FROM, alone.
fn first_source(alloc: Global, source: Source) -> Result<Sequence<Joined>, AllocError>
    ensures { IfOk result (λ sources. sources ≡ spec.first_source source) }
{
    let mut sources = Sequence::new(alloc);
    let side = JoinSide::Inner;
    let on = Sequence::new(alloc);
    sources.push(Joined { source, side, on })?;
    Ok(sources)
}

/// inners: further sources, behind the first.
#[tactic(auto, using(crate::proofs::Joins::joins_once, crate::proofs::Joins::joins_none), unfolding(crate::specs::ReadSelect::inners))]
fn read_inners(parser: &mut Parser, first: Source) -> Result<Sequence<Joined>, Refusal>
    ensures { Reads (spec.inners first parser.old) result parser.new }
{
    let turns = parser.left();
    let mut sources = first_source(parser.alloc(), first)?;
    for _ in 0..turns {
        if !read_join_word(parser)? {
            return Ok(sources);
        }
        let next = read_joined(parser, JoinSide::Inner)?;
        sources.push(next)?;
    }
    Ok(sources)
}

/// The side of an outer join, where its word is next, which is taken.
#[tactic(auto, unfolding(crate::specs::ReadSelect::take_side))]
fn read_side(parser: &mut Parser) -> Option<JoinSide>
    ensures { spec.take_side parser.old ≡ Some (result, parser.new) }
{
    if parser.eat_weak(WeakKeyword::Left) {
        Some(JoinSide::Left)
    } else if parser.eat_weak(WeakKeyword::Right) {
        Some(JoinSide::Right)
    } else if parser.eat_weak(WeakKeyword::Full) {
        Some(JoinSide::Full)
    } else {
        None
    }
}

/// outer: one further source, behind the word of its side.
#[tactic(auto, unfolding(crate::specs::ReadSelect::outer))]
fn read_outer(parser: &mut Parser, side: JoinSide) -> Result<Joined, Refusal>
    ensures { Reads (spec.outer side parser.old) result parser.new }
{
    parser.eat_weak(WeakKeyword::Outer);
    parser.expect_word(Keyword::Join)?;
    read_joined(parser, side)
}

/// The sources of FROM, of which the first was read and a side taken, or none.
fn read_sources_by(
    parser: &mut Parser,
    first: Source,
    side: Option<JoinSide>,
) -> Result<Sequence<Joined>, Refusal>
    ensures { Reads (spec.sources_by first side parser.old) result parser.new }
{
    let Some(side) = side else {
        return read_inners(parser, first);
    };
    let sources = first_source(parser.alloc(), first)?;
    let (mut sources, second) = beside(sources, read_outer(parser, side))?;
    sources.push(second)?;
    Ok(sources)
}

/// The sources of FROM, of which the first was read.
#[tactic(auto, unfolding(crate::specs::ReadSelect::sources))]
fn read_sources(parser: &mut Parser, first: Source) -> Result<Sequence<Joined>, Refusal>
    ensures { Reads (spec.sources first parser.old) result parser.new }
{
    let side = read_side(parser);
    read_sources_by(parser, first, side)
}

/// FROM and its sources, where they are.
#[tactic(auto, unfolding(crate::specs::ReadSelect::from))]
fn read_from(parser: &mut Parser) -> Result<Sequence<Joined>, Refusal>
    ensures { Reads (spec.from parser.old) result parser.new }
{
    if !parser.eat_word(Keyword::From) {
        return Ok(Sequence::new(parser.alloc()));
    }
    let first = parser.source()?;
    read_sources(parser, first)
}

/// WHERE and its expression, where they are.
#[tactic(auto, unfolding(expression_syntax::specs::ReadParts::optional))]
fn read_filter(parser: &mut Parser) -> Result<Option<RawExpr>, Refusal>
    ensures { Reads (spec.filter parser.old) result parser.new }
{
    if parser.eat_word(Keyword::Where) {
        let expr = parser.expression(Place::Plain)?;
        Ok(Some(expr))
    } else {
        Ok(None)
    }
}

/// HAVING and its expression, where they are.
#[tactic(auto, unfolding(expression_syntax::specs::ReadParts::optional))]
fn read_having(parser: &mut Parser) -> Result<Option<RawExpr>, Refusal>
    ensures { Reads (spec.having parser.old) result parser.new }
{
    if parser.eat_word(Keyword::Having) {
        let expr = parser.expression(Place::Plain)?;
        Ok(Some(expr))
    } else {
        Ok(None)
    }
}

/// GROUP BY and its columns, where they are.
#[tactic(auto, unfolding(expression_syntax::specs::ReadParts::optional, crate::specs::ReadSelect::behind))]
fn read_group(parser: &mut Parser) -> Result<Option<Sequence<RawRef>>, Refusal>
    ensures { Reads (spec.group parser.old) result parser.new }
{
    if parser.eat_word(Keyword::Group) {
        parser.expect_word(Keyword::By)?;
        let refs = parser.list()?;
        Ok(Some(refs))
    } else {
        Ok(None)
    }
}

/// ORDER BY and its keys, where they are.
#[tactic(auto, unfolding(expression_syntax::specs::ReadParts::optional, crate::specs::ReadSelect::behind))]
fn read_order(parser: &mut Parser) -> Result<Option<Sequence<RawKey>>, Refusal>
    ensures { Reads (spec.order parser.old) result parser.new }
{
    if parser.eat_word(Keyword::Order) {
        parser.expect_word(Keyword::By)?;
        let keys = parser.list()?;
        Ok(Some(keys))
    } else {
        Ok(None)
    }
}

/// What stands behind the items.
#[tactic(auto, unfolding(crate::specs::ReadSelect::clauses))]
fn read_clauses(
    parser: &mut Parser,
    distinct: bool,
    top: Option<u64>,
    items: Items,
    aggs: Sequence<RawAgg>,
) -> Result<Select, Refusal>
    ensures { Reads (spec.clauses distinct top items aggs parser.old) result parser.new }
{
    let listed = (items, aggs);
    let rows = beside(listed, read_from(parser))?;
    let rows = beside(rows, read_filter(parser))?;
    let groups = beside(rows, read_group(parser))?;
    let groups = beside(groups, read_having(parser))?;
    let (groups, order) = beside(groups, read_order(parser))?;
    let (((((items, aggs), sources), filter), group), having) = groups;
    Ok(Select {
        distinct,
        top,
        items,
        aggs,
        sources,
        filter,
        group,
        having,
        order,
    })
}

/// select, behind its word.
#[tactic(auto, unfolding(crate::specs::ReadSelect::select))]
pub(crate) fn read_select(parser: &mut Parser) -> Result<Select, Refusal>
    ensures { Reads (spec.select parser.old) result parser.new }
{
    let distinct = parser.eat_word(Keyword::Distinct);
    let top = read_top(parser)?;
    let items = parser.items()?;
    let aggs = parser.take_aggs();
    read_clauses(parser, distinct, top, items, aggs)
}
