// The latest call that a store counted as failed or as finding nothing.
use scope_value::Cell;

/// The name of a call, and whether it was a write.
#[derive(Drop)]
pub(crate) struct Latest {
    pub(crate) name: Cell,
    pub(crate) wrote: bool,
}
