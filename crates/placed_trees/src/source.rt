// Where rows come from.
use col_sets::Dir;
use scope_value::{Cell, Schema};
use sqlite_items::Items;

/// How the rows of a stream are declared to be stored, by places among its columns: by whose hash they are parted, and how each part
/// is sorted, if it is.
#[derive(Drop)]
pub struct StoredPlaces {
    pub hash: Items<u32>,
    pub sorted: Option<Items<(u32, Dir)>>,
}

/// A stream that is read: its name, the place and the args of its extractor, the columns of its rows, and how it is declared
/// to be stored.
#[derive(Drop)]
pub struct Stream {
    pub name: Cell,
    pub op: u32,
    pub args: Items<Cell>,
    pub schema: Schema,
    pub stored: Option<StoredPlaces>,
}

/// A result, by its name, or that of the statement just before where there is none; or a stream.
#[derive(Drop)]
pub enum Source {
    FromResult(Option<Cell>),
    FromStream(Stream),
}
