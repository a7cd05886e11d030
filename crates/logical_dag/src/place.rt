// Expressions of a script by number.

/// Which expression of a node is meant.
#[derive(Clone, Copy, PartialEq, Eq)]
pub enum PlacePart {
    /// The node itself.
    Whole,
    /// A join of these leaves of the join block whose top the node is: bit i is leaf i from the left.
    Leaves(u8),
    /// The first step of the node, a Group or a Top.
    Lower,
}

/// An expression of a Dag: its tree, the shared ones counted before those of the outputs, its node in post-order, and
/// which expression of the node it is. All are counted from 0.
#[derive(Clone, Copy, PartialEq, Eq)]
pub struct Place {
    pub tree: u32,
    pub node: u32,
    pub part: PlacePart,
}
