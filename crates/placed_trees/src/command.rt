// What a statement does.
use crate::call::Call;
use crate::query::Query;
use crate::source::{Source, StoredPlaces, Stream};
use col_sets::Dir;
use scope_value::Cell;
use sqlite_items::Items;

/// An OUTPUT: the name of its result, or None for that of the statement just before; the stream that it writes, the byte between its
/// fields, and how it is to be stored, by places among the columns of the result.
#[derive(Drop)]
pub struct Written {
    pub source: Option<Cell>,
    pub stream: Cell,
    pub delimiter: u8,
    pub stored: Option<StoredPlaces>,
}

/// A command. Pairs of columns have a place on the left and one on the right.
#[derive(Drop)]
pub enum Command {
    /// Reads a stream.
    Extract(Stream),
    /// Filters, joins, groups and sorts.
    Select(Query),
    /// Row by row.
    Process(Source, Call),
    /// Group by group.
    Reduce {
        source: Source,
        on: Items<u32>,
        presort: Option<Items<(u32, Dir)>>,
        call: Call,
    },
    /// Two inputs, group beside group.
    Combine {
        left: Source,
        left_presort: Option<Items<(u32, Dir)>>,
        right: Source,
        right_presort: Option<Items<(u32, Dir)>>,
        on: Items<(u32, u32)>,
        call: Call,
    },
    /// Writes a stream.
    Output(Written),
}
