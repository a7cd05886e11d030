// What the operators of an expression are handed.
use crate::agg::Agg;
use col_sets::{ColSet, KeyCols, KeyOrders};
use scope_value::{Cell, Schema};
use sqlite_items::Items;

/// What a Group is handed: the columns of its key and its aggregates. `written` has the list of GROUP BY, and is `None`
/// for DISTINCT and without GROUP BY.
#[derive(Drop)]
pub struct GroupArgs {
    pub written: Option<KeyCols>,
    pub keys: ColSet,
    pub aggs: Items<Agg>,
}

/// The call of a user operator: its place among those of its kind, its args, the columns that it gives and their schema.
#[derive(Drop)]
pub struct CallArgs {
    pub op: u32,
    pub args: Items<Cell>,
    pub cols: ColSet,
    pub output: Schema,
}

/// How many rows a Top keeps, and the order in which they are the first.
#[derive(Clone, Copy)]
pub struct TopArgs {
    pub n: u64,
    pub order: KeyOrders,
}
