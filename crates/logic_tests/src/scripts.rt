// Scripts of one output.
ghost use Rattle.std.specs.Prelude.{◌≡◌, [], ◌∷◌, map, flat_map, length, slice_get, None, IfOk, IsSomeAnd, All};
ghost use Rattle.std.specs.List.{range_with_len};
ghost use Rattle.logical_trees.specs.Tree.{tree_of};
ghost use Rattle.logical_dag.specs.Bounds.{AreBounded};
ghost use Rattle.logical_dag.specs.Scripts.{scans_of, IsWritten, IsScanOver, IsBindable};

use crate::trees::{counted, three_joined};
use logical_dag::{Dag, Logical, Output, ScanDecl};
use scope_value::{Cell, ColType, Column, Schema};
use sqlite_items::Items;
use std::alloc::{AllocError, Global};

// A stream of that many columns of numbers.
fn numbers(alloc: Global, columns: u32) -> Result<ScanDecl, AllocError>
    ensures columns { IfOk result (λ scan. length scan.schema ≡ columns) }
    ensures stored { IfOk result (λ scan. scan.stored ≡ None) }
{
    let mut schema = Schema::new(alloc);
    for _ in 0..columns {
        schema.push(Column {
            name: Cell::from_slice(alloc, b"n")?,
            kind: ColType::Long,
        })?;
    }
    Ok(ScanDecl {
        stream: Cell::from_slice(alloc, b"in")?,
        op: 0,
        args: Items::new(alloc),
        schema,
        stored: None,
    })
}

/// The rows as an output.
pub fn rows_out(alloc: Global, tree: Logical) -> Result<Output, AllocError>
    ensures tree { IfOk result (λ o. tree_of o.tree ≡ tree_of tree) }
    ensures order { IfOk result (λ o. o.order ≡ None) }
    ensures stored { IfOk result (λ o. o.stored ≡ None) }
{
    Ok(Output {
        name: Cell::from_slice(alloc, b"out")?,
        delimiter: b',',
        order: None,
        stored: None,
        tree,
    })
}

// A script with this one output.
fn script_of(alloc: Global, scans: Items<ScanDecl>, tree: Logical) -> Result<Dag, AllocError>
    requires bounds { AreBounded (length scans) [] (tree_of tree ∷ []) }
    requires written { IsWritten [] (tree_of tree) }
    requires scans { map (λ s. s.0) (flat_map scans_of (tree_of tree ∷ [])) ≡ range_with_len 0 (length scans) }
    requires declared { All (λ s. IsSomeAnd (slice_get scans s.0) (IsScanOver s.1)) (flat_map scans_of (tree_of tree ∷ [])) }
    ensures { IfOk result IsBindable }
{
    let mut outputs = Items::new(alloc);
    outputs.push(rows_out(alloc, tree)?)?;
    Ok(Dag {
        scans,
        shared: Items::new(alloc),
        outputs,
    })
}

// The counts of rows of four columns.
fn count_script(alloc: Global) -> Result<Dag, AllocError>
    ensures { IfOk result IsBindable }
{
    let mut scans = Items::new(alloc);
    scans.push(numbers(alloc, 4)?)?;
    script_of(alloc, scans, counted(alloc)?)
}

// The join of three streams.
fn join_script(alloc: Global) -> Result<Dag, AllocError>
    ensures { IfOk result IsBindable }
{
    let mut scans = Items::new(alloc);
    scans.push(numbers(alloc, 1)?)?;
    scans.push(numbers(alloc, 2)?)?;
    scans.push(numbers(alloc, 1)?)?;
    script_of(alloc, scans, three_joined(alloc)?)
}

/// A script of the table.
#[derive(Clone, Copy)]
pub enum Script {
    /// The counts of rows of four columns.
    Counts,
    /// The join of three streams.
    Joins,
}

/// The Dag of the script.
pub fn dag_of(alloc: Global, script: Script) -> Result<Dag, AllocError>
    ensures { IfOk result IsBindable }
{
    match script {
        Script::Counts => count_script(alloc),
        Script::Joins => join_script(alloc),
    }
}
