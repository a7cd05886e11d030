//! The direction of an order in one column.

/// Whether an order rises or falls in a column.
#[derive(Clone, Copy, Debug, Default, PartialEq, Eq)]
pub enum Dir {
    /// Lesser values first.
    #[default]
    Up,
    /// Greater values first.
    Down,
}
