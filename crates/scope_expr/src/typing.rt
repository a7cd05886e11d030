// Expressions with their columns found and their types tested.
ghost use Rattle.std.specs.Prelude.{◌≡◌, IfOk};
ghost use Rattle.scope_expr.specs.Names as spec;

use crate::expr::Expr;
use crate::kinds::is_typed;
use crate::names::{bind, has_ambiguous, has_unknown};
use crate::scope::{Scope, TypeFault};
use script_trees::RawExpr;
use std::alloc::{AllocError, Global};

/// The expression with its columns by number, or why it has no type: `Unknown` where some column of it is in no entry,
/// else `Ambiguous` where some column without alias is in two entries, else `Mismatch` where some operand is of a type
/// that its operator doesn't take. NULL goes with every type. An aggregate whose number the scope doesn't list is
/// unknown, and a literal that is a partial sum is a mismatch. The outer error is want of memory alone.
pub fn typed(
    alloc: Global,
    raw: &RawExpr,
    names: &Scope,
) -> Result<Result<Expr, TypeFault>, AllocError>
    ensures { IfOk result (λ answer. answer ≡ spec.typed names.now raw.now) }
{
    if has_unknown(names, raw) {
        return Ok(Err(TypeFault::Unknown));
    }
    if has_ambiguous(names, raw) {
        return Ok(Err(TypeFault::Ambiguous));
    }
    let e = bind(alloc, names, raw)?;
    if is_typed(&e) {
        Ok(Ok(e))
    } else {
        Ok(Err(TypeFault::Mismatch))
    }
}
