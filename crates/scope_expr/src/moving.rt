// Expressions over other columns, and the columns of an expression.
ghost use Rattle.std.specs.Prelude.{◌≡◌, IfOk};
ghost use Rattle.col_sets.specs.Sets.{set_of};
ghost use Rattle.scope_expr.specs.Moved as spec;

use crate::expr::Expr;
use col_sets::{ColId, ColSet};
use sqlite_items::Boxed;
use std::alloc::{AllocError, Global};

// The other name of a column: the one at its place in the list, its own past the end of it.
fn name_in(names: &[ColId], col: ColId) -> ColId
    ensures { result ≡ spec.name_in names.now col }
{
    match names.get(col as usize) {
        Some(name) => *name,
        None => col,
    }
}

impl Expr {
    /// The same expression over other columns, in memory of its own: column c becomes the one at place c of the list,
    /// and stays as it is where the list ends before it. An error is want of memory alone.
    #[tactic(auto, using(crate::proofs::MovedLemmas::moved_neg, crate::proofs::MovedLemmas::moved_not, crate::proofs::MovedLemmas::moved_pair))]
    pub fn renamed(&self, alloc: Global, names: &[ColId]) -> Result<Expr, AllocError>
        ensures { IfOk result (λ e. e ≡ spec.moved (spec.name_in names.now) self.now) }
    {
        match self {
            Expr::Literal(value) => Ok(Expr::Literal(value.copy()?)),
            Expr::Col(col, kind) => Ok(Expr::Col(name_in(names, *col), *kind)),
            Expr::Neg(a) => Ok(Expr::Neg(Boxed::new(alloc, a.get().renamed(alloc, names)?)?)),
            Expr::Not(a) => Ok(Expr::Not(Boxed::new(alloc, a.get().renamed(alloc, names)?)?)),
            Expr::Pair(op, a, b) => {
                let a = Boxed::new(alloc, a.get().renamed(alloc, names)?)?;
                let b = Boxed::new(alloc, b.get().renamed(alloc, names)?)?;
                Ok(Expr::Pair(*op, a, b))
            }
        }
    }

    /// The columns of the expression. A number above 127 is no column, and isn't among them.
    #[tactic(auto, using(crate::proofs::MovedLemmas::columns_neg, crate::proofs::MovedLemmas::columns_not, crate::proofs::MovedLemmas::columns_pair))]
    pub fn columns(&self) -> ColSet
        ensures { result ≡ set_of (spec.columns self.now) }
    {
        match self {
            Expr::Literal(_) => ColSet::empty(),
            Expr::Col(col, _) => ColSet::one(*col),
            Expr::Neg(a) | Expr::Not(a) => a.get().columns(),
            Expr::Pair(_, a, b) => a.get().columns().union(b.get().columns()),
        }
    }
}
