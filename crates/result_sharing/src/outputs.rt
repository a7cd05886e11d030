// The statements that write.
ghost use Rattle.std.specs.Prelude.{◌≡◌, IfOk};
ghost use Rattle.script_meaning.specs.Dag.{outs_of};

use crate::finding::gives;
use placed_trees::Statement;
use std::alloc::{AllocError, Global};

/// The numbers of the OUTPUTs. An error is want of memory.
pub(crate) fn outputs_of(alloc: Global, script: &[Statement]) -> Result<Vec<usize>, AllocError>
    ensures { IfOk result (λ v. v.items ≡ outs_of script.now) }
{
    let mut outputs = Vec::new(alloc);
    for (at, statement) in script.iter().enumerate() {
        if !gives(&statement.command) {
            outputs.push(at)?;
        }
    }
    Ok(outputs)
}
