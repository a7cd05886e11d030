// The SELECT command.
use crate::item::Items;
use crate::key::RawKey;
use crate::raw::{RawExpr, RawRef};
use crate::raw_agg::RawAgg;
use crate::ref_pair::RefPair;
use crate::side::JoinSide;
use crate::source::Source;
use sqlite_items::Items as Sequence;

/// A source of FROM, and how it is joined to those before it: the side of the join, and its equalities. The first source
/// has the side Inner and no equalities.
#[derive(Drop)]
pub struct Joined {
    pub source: Source,
    pub side: JoinSide,
    pub on: Sequence<RefPair>,
}

/// A SELECT, clause by clause. `aggs` are the aggregates of its items, from the left: `RawExpr::Agg(i)` is number i of
/// them. `sources` is empty where FROM is left out.
#[derive(Drop)]
pub struct Select {
    pub distinct: bool,
    pub top: Option<u64>,
    pub items: Items,
    pub aggs: Sequence<RawAgg>,
    pub sources: Sequence<Joined>,
    pub filter: Option<RawExpr>,
    pub group: Option<Sequence<RawRef>>,
    pub having: Option<RawExpr>,
    pub order: Option<Sequence<RawKey>>,
}
