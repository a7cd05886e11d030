// Why reading or writing ends.
use scope_value::Cell;

/// Why the streams of scans weren't all read, with the name in the store of the part that was read last, or of the stream.
#[derive(Drop)]
pub enum ReadStop {
    /// Memory was refused.
    NoMemory,
    /// The store failed to read the name.
    Failed(Cell),
    /// The store has nothing of that name.
    Missing(Cell),
    /// The extractor refused a record of the stream of that name: the first it refuses, counted from 1, in that part, counted from 0.
    Refused { name: Cell, part: u32, at: u64 },
}

/// Why the texts of outputs weren't all written.
#[derive(Drop)]
pub enum WriteStop {
    /// Memory was refused.
    NoMemory,
    /// The store failed to write the name.
    Failed(Cell),
}
