// Expressions as they are written: what the parser makes and `typed` reads.
use crate::op::PairOp;
use scope_value::{Cell, Value};
use sqlite_items::Boxed;

/// A column as it is written, `name` or `alias.name`.
#[derive(Drop)]
pub struct RawRef {
    pub alias: Option<Cell>,
    pub name: Cell,
}

/// An expression as it is written, without names resolved. Brackets leave no trace in it.
#[derive(Drop)]
pub enum RawExpr {
    /// A number, a string, TRUE, FALSE or NULL.
    Literal(Value),
    /// A column.
    Ref(RawRef),
    /// An aggregate, by its number among those of its SELECT, counted from 0.
    Agg(u32),
    /// `-a`.
    Neg(Boxed<RawExpr>),
    /// `!a`.
    Not(Boxed<RawExpr>),
    /// `a + b` and the like.
    Pair(PairOp, Boxed<RawExpr>, Boxed<RawExpr>),
}
