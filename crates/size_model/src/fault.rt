// Why a sizes file is refused.
use thiserror::Error;

/// The first record of a sizes file outside the form, counted from 1. Empty lines are no records, and aren't counted.
#[derive(Clone, Copy, Debug, PartialEq, Eq, Error)]
#[error("record {at} declares no size")]
pub struct SizesFault {
    pub at: u64,
}
