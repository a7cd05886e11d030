// Expressions with their columns known by number: what the rest of the compiler and the run work with.
ghost use Rattle.std.specs.Prelude.{◌≡◌, IfOk};

use col_sets::ColId;
use scope_value::{ColType, Value};
use script_trees::PairOp;
use sqlite_items::Boxed;
use std::alloc::{AllocError, Global};

/// An expression over the columns of a row, each column with its type.
#[derive(Drop)]
pub enum Expr {
    /// A number, a string, a truth value or null.
    Literal(Value),
    /// A column of the row, and its type.
    Col(ColId, ColType),
    /// `-a`.
    Neg(Boxed<Expr>),
    /// `!a`.
    Not(Boxed<Expr>),
    /// `a + b` and the like.
    Pair(PairOp, Boxed<Expr>, Boxed<Expr>),
}

impl Expr {
    /// The same expression, in memory of its own.
    pub fn copy(&self, alloc: Global) -> Result<Expr, AllocError>
        ensures { IfOk result (λ e. e ≡ self.now) }
    {
        match self {
            Expr::Literal(value) => Ok(Expr::Literal(value.copy()?)),
            Expr::Col(col, kind) => Ok(Expr::Col(*col, *kind)),
            Expr::Neg(a) => Ok(Expr::Neg(Boxed::new(alloc, a.get().copy(alloc)?)?)),
            Expr::Not(a) => Ok(Expr::Not(Boxed::new(alloc, a.get().copy(alloc)?)?)),
            Expr::Pair(op, a, b) => {
                let a = Boxed::new(alloc, a.get().copy(alloc)?)?;
                let b = Boxed::new(alloc, b.get().copy(alloc)?)?;
                Ok(Expr::Pair(*op, a, b))
            }
        }
    }
}
