//! Expressions of a script: as written, as typed, and their value on a row.
//!
//! [`typed`] gives the columns their numbers and tests the types, [`kind_of`] is the type of an expression, and
//! [`eval`] its value on a row. A contract sees an expression as a plain tree, so that two trees are compared by `≡`.
#![tactic(auto)]

mod aggregates;
mod calculate;
mod evaluate;
mod expr;
mod held;
mod kinds;
mod laws;
mod moving;
mod names;
mod scope;
mod sight;
mod typing;

pub use aggregates::{agg_kind, agg_takes};
pub use evaluate::{eval, holds};
pub use expr::Expr;
pub use kinds::{are_alike, is_typed, kind_of, takes_number, takes_truth};
pub use laws::{columns_law, moved_law, scope_law, typed_law, value_fits_law};
pub use names::{bind, column_of, has_ambiguous, has_unknown, is_ambiguous, is_unknown};
pub use scope::{Entry, Scope, TypeFault};
pub use script_trees::{AggKind, PairOp, RawExpr, RawRef};
pub use sight::is_named;
pub use typing::typed;
