// How tightly operators bind.

/// The levels of an expression, from the loosest: each is made of pieces of the next.
#[derive(Clone, Copy, PartialEq, Eq)]
pub enum Level {
    Or,
    And,
    Compare,
    Sum,
    Product,
    Unary,
    Primary,
}

/// Where an expression stands: in an item, which may have aggregates, or elsewhere, an aggregate's argument included.
#[derive(Clone, Copy, PartialEq, Eq)]
pub enum Place {
    Item,
    Plain,
}
