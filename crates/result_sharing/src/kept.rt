// The shared results that an OUTPUT reaches.
ghost use Rattle.std.specs.Prelude.{◌≡◌, [], ◌++◌, map, filter, length, IfOk, OnOk};
ghost use Rattle.std.specs.List.{range_with_len};
ghost use Rattle.col_sets.specs.Sets.{has};
ghost use Rattle.result_sharing.specs.Steps.{reached_by, reached_from, kept_by};

use crate::places::is_among;
use sqlite_items::Items;
use std::alloc::{AllocError, Global};

fn push_all(more: &[usize], reached: &mut Vec<usize>) -> Result<(), AllocError>
    ensures { OnOk result (reached.new.items ≡ reached.old.items ++ more.now) }
{
    for k in more {
        reached.push(*k)?;
    }
    Ok(())
}

// What the result of that statement refers to is reached, where the result is.
fn push_refs(
    outputs: &[usize],
    k: usize,
    refs: &Items<usize>,
    reached: &mut Vec<usize>,
) -> Result<(), AllocError>
    ensures { OnOk result (reached.new.items ≡ reached_by outputs.now k refs.now reached.old.items) }
{
    if is_among(outputs, k) || is_among(reached.as_slice(), k) {
        push_all(refs.as_slice(), reached)?;
    }
    Ok(())
}

// The results that the outputs reach. A result is mentioned by later ones alone, so these are gone through first.
fn reached_of(
    alloc: Global,
    outputs: &[usize],
    refs: &[Items<usize>],
) -> Result<Vec<usize>, AllocError>
    ensures { IfOk result (λ v. v.items ≡ reached_from outputs.now 0 refs.now) }
{
    let mut reached = Vec::new(alloc);
    for k in (0..refs.len()).rev() {
        push_refs(outputs, k, &refs[k], &mut reached)?;
    }
    Ok(reached)
}

// The numbers below `count` that are among these, ascending.
fn among(alloc: Global, reached: &[usize], count: usize) -> Result<Vec<usize>, AllocError>
    ensures { IfOk result (λ v. v.items ≡ filter (has reached.now) (range_with_len 0 count)) }
{
    let mut kept = Vec::new(alloc);
    for k in 0..count {
        if is_among(reached, k) {
            kept.push(k)?;
        }
    }
    Ok(kept)
}

/// The shared results that the outputs reach, ascending, by what each result refers to. An error is want of memory.
pub(crate) fn kept_of(
    alloc: Global,
    outputs: &[usize],
    refs: &[Items<usize>],
) -> Result<Vec<usize>, AllocError>
    ensures { IfOk result (λ v. v.items ≡ kept_by outputs.now refs.now) }
{
    let reached = reached_of(alloc, outputs, refs)?;
    among(alloc, reached.as_slice(), refs.len())
}
