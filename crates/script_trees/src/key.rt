// One column of ORDER BY or PRESORT.
use crate::raw::RawRef;

/// A column to sort by, and whether downwards.
#[derive(Drop)]
pub struct RawKey {
    pub column: RawRef,
    pub down: bool,
}
