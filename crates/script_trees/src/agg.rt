// The aggregates of a SELECT.

/// What an aggregate counts, adds or picks: all rows or those where its argument isn't null, those where it is true,
/// the sum of the values that aren't null, the least or the greatest of these.
#[derive(Clone, Copy, PartialEq, Eq)]
pub enum AggKind {
    Count,
    CountIf,
    Sum,
    Min,
    Max,
}
