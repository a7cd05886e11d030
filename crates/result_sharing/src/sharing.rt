// Which results of a script are shared.
ghost use Rattle.std.specs.Prelude.{◌≡◌, [], IfOk};
ghost use Rattle.script_meaning.specs.Bound as bound;
ghost use Rattle.script_meaning.specs.Bound.{parts_of};
ghost use Rattle.script_meaning.specs.Dag as spec;
ghost use Rattle.script_meaning.specs.Dag.{outs_of};
ghost use Rattle.result_sharing.specs.Sharing.{IsSharing};

use crate::kept::kept_of;
use crate::mentions::mentions_of;
use crate::outputs::outputs_of;
use crate::refs::all_refs;
use crate::widths::widths_of;
use placed_trees::Statement;
use std::alloc::{AllocError, Global};

/// Of a script: each mention of a result; how many columns the result of each statement has; the OUTPUTs; and the shared results that
/// they reach, all by the numbers of statements, from 0.
#[derive(Drop)]
pub struct Sharing {
    pub mentions: Vec<usize>,
    pub widths: Vec<usize>,
    pub outputs: Vec<usize>,
    pub kept: Vec<usize>,
}

// The shared results that these OUTPUTs reach.
fn kept_in(
    alloc: Global,
    script: &[Statement],
    mentions: &[usize],
    outputs: &[usize],
) -> Result<Vec<usize>, AllocError>
    requires mentions { mentions.now ≡ bound.mentions [] script.now }
    requires outputs { outputs.now ≡ outs_of script.now }
    ensures { IfOk result (λ v. v.items ≡ spec.kept_of (outs_of script.now) (parts_of script.now)) }
{
    let refs = all_refs(alloc, script, mentions)?;
    kept_of(alloc, outputs, refs.as_slice())
}

/// What is shared in a script. An error is want of memory.
pub fn sharing_of(alloc: Global, script: &[Statement]) -> Result<Sharing, AllocError>
    ensures { IfOk result (IsSharing script.now) }
{
    let mentions = mentions_of(alloc, script)?;
    let outputs = outputs_of(alloc, script)?;
    let kept = kept_in(alloc, script, mentions.as_slice(), outputs.as_slice())?;
    let widths = widths_of(alloc, script)?;
    Ok(Sharing {
        mentions,
        widths,
        outputs,
        kept,
    })
}
