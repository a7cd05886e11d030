// The columns of a set, one by one.
ghost use Rattle.std.specs.Prelude.{◌≡◌, IfOk};

use col_sets::{ColId, ColSet};
use std::alloc::{AllocError, Global};

/// The columns of a set, ascending.
pub(crate) fn columns_in(alloc: Global, set: ColSet) -> Result<Vec<ColId>, AllocError>
    ensures { IfOk result (λ columns. columns.items ≡ set) }
{
    Vec::from_slice(alloc, set.members().as_slice())
}
