//! How rows are dealt out to parts, and what is asked of it.
use col_sets::{ColSet, KeyCols, KeyOrders};

/// How the rows of a list of parts were dealt out.
#[derive(Clone, Copy, Debug, PartialEq, Eq)]
pub enum Scheme {
    /// That many parts, and nothing is known of which row lies where.
    Any(u32),
    /// One part.
    Serial,
    /// As many parts as the partition count, each row in the part of its key's bucket.
    Hash(KeyCols),
    /// As many parts as the partition count, each row of an earlier part strictly before each row of a later one.
    Range(KeyOrders),
    /// That many parts, two or more, each of which holds the same bag.
    Copies(u32),
}

/// What is asked of how rows were dealt out.
#[derive(Clone, Copy, Debug, PartialEq, Eq)]
pub enum NeedScheme {
    /// Nothing of the parts themselves: they may be of any scheme but Copies.
    None,
    /// One part.
    OnePartition,
    /// Rows that agree on the columns lie in one part.
    Together(ColSet),
    /// Each row lies in the part of the bucket of just this key.
    HashExact(KeyCols),
    /// That many parts, two or more, each of which holds the same bag.
    Copies(u32),
}
