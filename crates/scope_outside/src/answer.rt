// What a store answers to a read and to a write.

/// What a read answers.
#[derive(Clone, Copy, Debug, PartialEq, Eq)]
pub enum ReadAnswer {
    /// The whole content was appended.
    Done,
    /// The store has nothing of that name.
    Missing,
    /// The read failed.
    Failed,
    /// Memory was refused.
    NoMemory,
}

/// What a write answers.
#[derive(Clone, Copy, Debug, PartialEq, Eq)]
pub enum WriteAnswer {
    /// The name now holds the bytes.
    Done,
    /// The write failed, and what the name holds is open.
    Failed,
    /// Memory was refused.
    NoMemory,
}
