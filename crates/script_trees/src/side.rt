// Which rows a join keeps.

/// The rows that a join keeps besides the pairs that agree: none, the left ones that agree with no right one, the right
/// ones that agree with no left one, or both.
#[derive(Clone, Copy, PartialEq, Eq)]
pub enum JoinSide {
    Inner,
    Left,
    Right,
    Full,
}
