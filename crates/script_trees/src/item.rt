// What a SELECT lists.
use crate::raw::RawExpr;
use scope_value::Cell;
use sqlite_items::Items as Sequence;

/// An output column: its expression and its name.
#[derive(Drop)]
pub struct Item {
    pub expr: RawExpr,
    pub name: Cell,
}

/// `*`, or the items that are listed.
#[derive(Drop)]
pub enum Items {
    All,
    Listed(Sequence<Item>),
}
