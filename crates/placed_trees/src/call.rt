// The use of an operator.
use scope_value::{Cell, Schema};
use sqlite_items::Items;

/// A call of a user operator: its place among those of its kind, its args, and the columns that it gives.
#[derive(Drop)]
pub struct Call {
    pub op: u32,
    pub args: Items<Cell>,
    pub output: Schema,
}
