// The SELECT command.
use crate::call::Call;
use crate::source::Source;
use col_sets::Dir;
use outer_joins::Side;
use scope_expr::Expr;
use script_trees::AggKind;
use sqlite_items::Items;

/// A further source, and the pairs of columns that are set equal: a place among the columns to its left, and one among its own.
#[derive(Drop)]
pub struct Joined {
    pub source: Source,
    pub on: Items<(u32, u32)>,
}

/// The sources after the first: joined one after the other, or one by an outer join, with the call of its combiner.
#[derive(Drop)]
pub enum Beside {
    Inners(Items<Joined>),
    Outer(Side, Call, Joined),
}

/// The places of GROUP BY, and the aggregates of the items from the left, with their arguments. Only `COUNT(*)` has none.
#[derive(Drop)]
pub struct Grouping {
    pub written: Items<u32>,
    pub aggs: Items<(AggKind, Option<Expr>)>,
}

/// A SELECT, clause by clause. A column's number in an expression is its place among the columns that the expression sees: those
/// of all sources, one after the other, in WHERE, in GROUP BY and in the arguments of aggregates; in the items those too, or, in a
/// grouped SELECT, the ones of GROUP BY, ascending, and then the aggregates; in HAVING and ORDER BY the items.
#[derive(Drop)]
pub struct Query {
    pub source: Source,
    pub beside: Beside,
    pub test: Option<Expr>,
    pub group: Option<Grouping>,
    pub items: Items<Expr>,
    pub having: Option<Expr>,
    pub distinct: bool,
    pub order: Option<Items<(u32, Dir)>>,
    pub top: Option<u64>,
}
