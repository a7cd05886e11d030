// Nodes without sources.
ghost use Rattle.std.specs.Prelude.{◌≡◌, ℕ, ◌+◌, ◌≤◌, length, IfOk};
ghost use Rattle.std.specs.List.{range_with_len};
ghost use Rattle.logical_trees.specs.Tree.{leaf};
ghost use Rattle.script_meaning.specs.Part.{Part, scanned, referred};
ghost use Rattle.script_nodes.specs.Made.{IsMade};
ghost use Rattle.script_nodes.specs.Steps.{IsNode};

use crate::columns::fresh_columns;
use crate::made::Made;
use col_sets::{ColId, ColSet};
use logical_dag::{LogicOp, Logical};
use placed_trees::Stream;
use std::alloc::{AllocError, Global};

/// The Scan of a stream under that number, its columns numbered from `next`. An error is want of memory.
#[tactic(auto, using(crate::proofs::Standing::scan_made, crate::proofs::Standing::range_rises, crate::proofs::Standing::rises_set))]
pub fn scan_of(alloc: Global, stream: &Stream, scan: u32, next: u32) -> Result<Made, AllocError>
    requires { next + length stream.now.schema ≤ 128 }
    ensures { IfOk result (λ m. (name : ℕ → ℕ) → IsMade name scan next (scanned stream.now) m) }
{
    let width = stream.schema.len();
    let cols = fresh_columns(alloc, next, width)?;
    let set = ColSet::of(cols.as_slice());
    let tree = Logical::leaf(alloc, LogicOp::Scan { scan, cols: set });
    Ok(Made {
        tree,
        cols,
        next: next + width as u32,
    })
}

/// The Ref to a shared result that has so many columns, numbered from `next`. An error is want of memory.
#[tactic(auto, using(crate::proofs::Standing::ref_made, crate::proofs::Standing::range_rises, crate::proofs::Standing::rises_set))]
pub fn ref_of(alloc: Global, shared: u32, width: u32, next: u32) -> Result<Made, AllocError>
    requires { next + width ≤ 128 }
    ensures { IfOk result (λ m. (name : ℕ → ℕ) (k s : ℕ) (b : Part) → name k ≡ shared → length b.cols ≡ width → IsMade name s next (referred k b) m) }
{
    let cols = fresh_columns(alloc, next, width as usize)?;
    let set = ColSet::of(cols.as_slice());
    let tree = Logical::leaf(alloc, LogicOp::Ref { shared, cols: set });
    Ok(Made {
        tree,
        cols,
        next: next + width,
    })
}
