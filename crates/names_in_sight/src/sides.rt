// The two sides of an ON.
use scope_expr::Scope;

/// The columns that an ON sees: those to the left, numbered from 0; those of the right input alone, numbered from 0; and both, one after
/// the other.
#[derive(Drop)]
pub struct Sides {
    pub left: Scope,
    pub right: Scope,
    pub both: Scope,
}
