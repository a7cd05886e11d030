// What stands for a stream, and for a shared result.
ghost use Rattle.std.specs.Prelude.{◌≡◌, ℕ, ◌+◌, ◌<◌, ◌≤◌, length, get_or, IfOk};
ghost use Rattle.script_meaning.specs.Dag.{place_in};
ghost use Rattle.script_meaning.specs.Part.{Part, scanned, referred};
ghost use Rattle.script_meaning.specs.Placed.{IsStoredBelow};
ghost use Rattle.script_meaning.specs.Within.{IsStoredFew};
ghost use Rattle.script_nodes.specs.Made.{IsMade};
ghost use Rattle.result_trees.specs.Results.{IsPartMade};

use logical_dag::ScanDecl;
use names_in_sight::carrying::beside;
use placed_trees::Stream;
use result_sharing::{Sharing, place_of};
use script_nodes::{Made, declared_scan, ref_of, scan_of};
use std::alloc::{AllocError, Global};

// The Scan of a stream, behind these scans, to which its declaration comes.
pub(crate) fn stream_tree(
    alloc: Global,
    stream: &Stream,
    next: u32,
    scans: &mut Vec<ScanDecl>,
) -> Result<Made, AllocError>
    requires few { IsStoredFew stream.now.stored }
    requires there { IsStoredBelow (length stream.now.schema) stream.now.stored }
    requires room { length scans.old.items < 320 }
    requires columns { next + length stream.now.schema ≤ 128 }
    ensures { IfOk result (λ m. (name : ℕ → ℕ) → IsPartMade name next (scanned stream.now) scans.old.items scans.new.items m) }
{
    let made = scan_of(alloc, stream, scans.len() as u32, next)?;
    let declared = declared_scan(alloc, stream, made.cols.as_slice());
    let (made, declared) = beside(made, declared)?;
    scans.push(declared)?;
    Ok(made)
}

// The Ref to a shared result.
pub(crate) fn shared_tree(
    alloc: Global,
    sharing: &Sharing,
    k: usize,
    next: u32,
) -> Result<Made, AllocError>
    requires few { length sharing.now.kept.items ≤ 64 }
    requires there { k < length sharing.now.widths.items }
    requires columns { next + get_or sharing.now.widths.items k 0 ≤ 128 }
    ensures { IfOk result (λ m. (s : ℕ) (b : Part) → length b.cols ≡ get_or sharing.now.widths.items k 0
        → IsMade (place_in sharing.now.kept.items) s next (referred k b) m) }
{
    let width = sharing.widths[k] as u32;
    ref_of(alloc, place_of(sharing.kept.as_slice(), k), width, next)
}
