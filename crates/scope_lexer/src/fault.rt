//! Why a text has no tokens.

use thiserror::Error;

/// The first byte of a text at which neither white space nor a comment nor a token begins. For a text that is too
/// long it is the limit.
#[derive(Clone, Copy, Debug, PartialEq, Eq, Error)]
#[error("no token begins at byte {at}")]
pub struct LexFault {
    /// The byte's place, counted from 0.
    pub at: u32,
}
