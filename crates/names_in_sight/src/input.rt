// What a statement reads.
use scope_value::{Cell, Schema};

/// An input of a statement: the alias that its columns go by, if it has one, and its columns.
#[derive(Drop)]
pub struct Input {
    pub alias: Option<Cell>,
    pub columns: Schema,
}
