// What a statement does.
use crate::call::Call;
use crate::key::RawKey;
use crate::raw::RawRef;
use crate::ref_pair::RefPair;
use crate::select::Select;
use crate::source::Source;
use crate::stored::RawStored;
use scope_value::{Cell, Column};
use sqlite_items::Items;

/// A command as it is written. Where an input is left out it is the result of the command just before.
#[derive(Drop)]
pub enum Command {
    /// Reads a stream, of which may be declared how it is stored.
    Extract {
        cols: Items<Column>,
        stream: Cell,
        call: Call,
        stored: Option<RawStored>,
    },
    /// Filters, joins, groups and sorts.
    Select(Select),
    /// Row by row.
    Process {
        source: Option<Source>,
        call: Call,
        cols: Items<Column>,
    },
    /// Group by group.
    Reduce {
        source: Option<Source>,
        presort: Option<Items<RawKey>>,
        on: Items<RawRef>,
        call: Call,
        cols: Items<Column>,
    },
    /// Two inputs, group beside group.
    Combine {
        left: Source,
        left_presort: Option<Items<RawKey>>,
        right: Source,
        right_presort: Option<Items<RawKey>>,
        on: Items<RefPair>,
        call: Call,
        cols: Items<Column>,
    },
    /// Writes a stream, stored where that is declared.
    Output {
        source: Option<Cell>,
        stream: Cell,
        outputter: Option<Cell>,
        stored: Option<RawStored>,
    },
}
