// Join blocks: their leaves and equalities, and the Dags that they may stand in.
ghost use Rattle.std.specs.Prelude.{◌≡◌};
ghost use Rattle.logical_trees.specs.Tree.{tree_of};
ghost use Rattle.logical_trees.specs.Worked as worked;

use crate::making::{beside_scan, columns_in, on_pair, scan, set_of};
use crate::scripts::rows_out;
use crate::trees::three_joined;
use logical_dag::{Dag, Equality, Logical, block_equalities, block_leaf, columns_of};
use sqlite_items::Items;
use std::alloc::{AllocError, Global};
use std::test::Fail;

// So many scans of one column each, joined from the left by the column and the one before.
fn joined(alloc: Global, leaves: u32) -> Result<Logical, AllocError> {
    let mut tree = scan(alloc, 0, set_of(&[0]));
    for number in 1..leaves {
        tree = beside_scan(
            alloc,
            on_pair(number - 1, number),
            tree,
            number,
            set_of(&[number]),
        )?;
    }
    Ok(tree)
}

// Whether a Dag may have the join of so many scans, whose output it has or hands back.
fn is_accepted(alloc: Global, leaves: u32) -> Result<(bool, usize), AllocError> {
    let mut outputs = Items::new(alloc);
    outputs.push(rows_out(alloc, joined(alloc, leaves)?)?)?;
    match Dag::new(Items::new(alloc), Items::new(alloc), outputs) {
        Ok(dag) => Ok((true, dag.outputs.len())),
        Err(parts) => Ok((false, parts.outputs.len())),
    }
}

#[test]
fn a_block_has_at_most_five_leaves(rt: HostRuntime) -> Result<(), Fail> {
    for (leaves, accepted) in [(1, true), (5, true), (6, false)] {
        assert_eq!(rt; is_accepted(rt.alloc(), leaves)?, (accepted, 1));
    }
    Ok(())
}

fn has_leaf(tree: &Logical, number: u32, columns: &str) -> bool {
    match block_leaf(tree, number) {
        Ok(leaf) => columns_of(leaf) == columns_in(columns),
        Err(_) => false,
    }
}

// The leaves have the columns 0, then 1 and 2, then 3, and number 5 is two past the last.
fn leaves_are_so(tree: &Logical) -> bool {
    has_leaf(tree, 0, "0")
        && has_leaf(tree, 1, "1.2")
        && has_leaf(tree, 2, "3")
        && matches!(block_leaf(tree, 5), Err(2))
}

// Node 2 joins the first two leaves, and node 4 these with the third.
fn equalities_are_so(tree: &Logical) -> bool
    requires { tree_of tree.now ≡ worked.three_joined }
{
    let first = Equality {
        node: 2,
        left: 0,
        right: 1,
    };
    let second = Equality {
        node: 4,
        left: 1,
        right: 3,
    };
    block_equalities(tree, 4).as_slice() == [first, second].as_slice()
}

#[test]
fn leaves_and_equalities_come_from_the_left(rt: HostRuntime) -> Result<(), Fail> {
    let tree = three_joined(rt.alloc())?;
    let is_so = leaves_are_so(&tree) && equalities_are_so(&tree);
    drop(tree);
    assert!(rt; is_so);
    Ok(())
}
