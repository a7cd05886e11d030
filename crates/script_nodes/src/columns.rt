// Columns that are numbered afresh, and those that a GROUP BY names.
ghost use Rattle.std.specs.Prelude.{◌≡◌, ◌+◌, ◌≤◌, ◌++◌, map, length, IfOk};
ghost use Rattle.std.specs.List.{range_with_len};
ghost use Rattle.col_sets.specs.Sets.{has};
ghost use Rattle.script_meaning.specs.Meaning.{key_places};
ghost use Rattle.script_nodes.specs.Steps.{column_at};

use col_sets::{ColId, ColSet};
use std::alloc::{AllocError, Global};

/// The columns, and so many that are numbered afresh from a number on. An error is want of memory.
#[tactic(auto, using(crate::proofs::Places::range_more))]
pub(crate) fn with_fresh(
    cols: Vec<ColId>,
    from: u32,
    count: usize,
) -> Result<Vec<ColId>, AllocError>
    requires { from + count ≤ 128 }
    ensures { IfOk result (λ all. all.items ≡ cols.items ++ range_with_len from count) }
{
    let mut all = cols;
    for place in 0..count {
        all.push(from + place as u32)?;
    }
    Ok(all)
}

/// So many columns, numbered afresh from a number on. An error is want of memory.
pub(crate) fn fresh_columns(
    alloc: Global,
    from: u32,
    count: usize,
) -> Result<Vec<ColId>, AllocError>
    requires { from + count ≤ 128 }
    ensures { IfOk result (λ cols. cols.items ≡ range_with_len from count) }
{
    with_fresh(Vec::new(alloc), from, count)
}

/// The set of so many columns, numbered afresh from a number on. An error is want of memory.
#[tactic(auto, using(script_meaning::proofs::Named::range_set))]
pub(crate) fn fresh_set(alloc: Global, from: u32, count: usize) -> Result<ColSet, AllocError>
    requires { from + count ≤ 128 }
    ensures { IfOk result (λ cols. cols ≡ range_with_len from count) }
{
    let cols = fresh_columns(alloc, from, count)?;
    Ok(ColSet::of(cols.as_slice()))
}

fn is_named(written: &[u32], place: u32) -> bool
    ensures { result ≡ has written.now place }
{
    written.contains(&place)
}

/// The columns at the places that a GROUP BY names, ascending, each once. An error is want of memory.
#[tactic(auto, using(crate::proofs::Places::keys_taken, crate::proofs::Places::keys_left))]
pub(crate) fn key_columns(
    alloc: Global,
    cols: &[ColId],
    written: &[u32],
) -> Result<Vec<ColId>, AllocError>
    requires { length cols.now ≤ 128 }
    ensures { IfOk result (λ keys. keys.items ≡ map (column_at cols.now) (key_places (length cols.now) written.now)) }
{
    let mut keys = Vec::new(alloc);
    for place in 0..cols.len() {
        if is_named(written, place as u32) {
            keys.push(cols[place])?;
        }
    }
    Ok(keys)
}
