// Two columns that are set equal.
use crate::raw::RawRef;

/// Two columns that ON sets equal, in the order in which they are written.
pub type RefPair = (RawRef, RawRef);
