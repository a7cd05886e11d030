// What a node of a tree does, and one node over groups.

/// What a node does. A number is that of a node of the Dag.
#[derive(Clone, Copy)]
pub enum Kind {
    /// The Dag's node of that number, which is no Join.
    Node(u32),
    /// A join of what is below it.
    Join,
    /// The first step of the Dag's Group or Top of that number.
    Partial(u32),
    /// The second step of the Dag's Group or Top of that number.
    Finish(u32),
}

/// One node over groups, each by its number.
#[derive(Clone, Copy)]
pub enum Form {
    /// Over none.
    Leaf(Kind),
    /// Over one group.
    One(Kind, u32),
    /// Over two groups, the left one first.
    Two(Kind, u32, u32),
}
