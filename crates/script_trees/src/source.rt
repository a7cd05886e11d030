// Where the rows of a command come from.
use crate::call::Call;
use scope_value::Cell;

/// What a source reads: the result of a named statement, or a stream by an extractor.
#[derive(Drop)]
pub enum Origin {
    Named(Cell),
    Stream(Cell, Call),
}

/// A source and the alias that AS gives it.
#[derive(Drop)]
pub struct Source {
    pub origin: Origin,
    pub alias: Option<Cell>,
}
