// What is declared of a stored stream.
use crate::key::RawKey;
use crate::raw::RawRef;
use sqlite_items::Items;

/// How the rows of a stored stream are parted and sorted, as it is written: by the hash of these columns, and within each
/// part by these keys, where SORTED is written.
#[derive(Drop)]
pub struct RawStored {
    pub hash: Items<RawRef>,
    pub sorted: Option<Items<RawKey>>,
}
