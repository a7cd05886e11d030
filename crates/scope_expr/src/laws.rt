// What typing is worth, each fact as the contract of a function with nothing to do.
ghost use Rattle.scope_expr.specs.Laws.{IsValueFitting, IsTypedTyped, IsTypedInScope, IsMovedSame, AreColumnsAll, IsOneInSight};

/// The value of a typed expression fits its type, on a row where the value of each of its columns fits the column's type.
pub fn value_fits_law()
    ensures { IsValueFitting }
{}

/// An expression that `typed` answers has operands of the types that its operators take, and no columns but the scope's.
pub fn typed_law()
    ensures operands { IsTypedTyped }
    ensures columns { IsTypedInScope }
{}

/// An expression over other columns has the value that it had, on rows whose values in these are those that its columns
/// had.
pub fn moved_law()
    ensures { IsMovedSame }
{}

/// Each column of an expression is in the list of its columns, and one that is passes each test that each column passes.
pub fn columns_law()
    ensures { AreColumnsAll }
{}

/// A reference with an alias names at most one of the columns in sight, where these are made by `Scope::add`.
pub fn scope_law()
    ensures { IsOneInSight }
{}
