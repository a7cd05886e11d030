// Why a part gives no rows.
use thiserror::Error;

/// The first record of a part that its extractor refuses, counted from 1. Empty lines are no records, and aren't counted.
#[derive(Clone, Copy, Debug, PartialEq, Eq, Error)]
#[error("record {at} gives no row")]
pub struct RowFault {
    pub at: u64,
}
