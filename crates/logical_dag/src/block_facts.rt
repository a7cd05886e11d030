// What is known of the rows of a join of some leaves of a join block, whatever the order in which they are joined.
ghost use Rattle.std.specs.Prelude.{◌≡◌, ◌/◌, [], ◌∷◌};
ghost use Rattle.logical_trees.specs.Tree.{tree_of};
ghost use Rattle.logical_trees.specs.Formed.{IsFormed};
ghost use Rattle.logical_dag.specs.Laws.{lent_columns};
ghost use Rattle.logical_trees.specs.Blocks.{block_leaves, block_pairs, chosen};
ghost use Rattle.logical_dag.specs.BlockFacts.{AreFactsOfAll};
ghost use Rattle.logical_dag.specs.Gathered.{bits_after, IsBlank, IsOverColumns, IsApartFrom, AreAdded};
ghost use Rattle.logical_dag.specs.KnownNodes.{MayHaveFacts};

use crate::block_pairs::with_block_pairs;
use crate::known::joined;
use crate::known_nodes::{NodeFacts, facts_by, left_of};
use col_sets::ColSet;
use fd_closure::Facts;
use logical_trees::{LogicOp, Logical};

// The facts of the leaves so far, and the bits of the mask that are left for those to come.
#[derive(Clone, Copy)]
struct Gathered {
    facts: Facts,
    mask: u8,
}

// With the facts of a leaf.
fn with_leaf(
    tree: &Logical,
    number: usize,
    known: &[NodeFacts],
    shared: &[Facts],
    into: Facts,
) -> Facts
    requires formed { IsFormed (lent_columns shared.now) (tree_of tree.now) }
    requires known { MayHaveFacts shared.now known.now (tree_of tree.now) number }
    requires over { IsOverColumns into }
    requires apart { IsApartFrom into.columns (tree_of tree.now) }
    ensures { AreAdded shared.now into (tree_of tree.now ∷ []) result }
{
    let leaf = facts_by(tree, number, known, shared);
    joined(&[], into, &leaf)
}

// With the facts of a leaf, if the lowest bit of the mask is set.
fn with_chosen(
    tree: &Logical,
    number: usize,
    mask: u8,
    known: &[NodeFacts],
    shared: &[Facts],
    into: Facts,
) -> Gathered
    requires formed { IsFormed (lent_columns shared.now) (tree_of tree.now) }
    requires known { MayHaveFacts shared.now known.now (tree_of tree.now) number }
    requires over { IsOverColumns into }
    requires apart { IsApartFrom into.columns (tree_of tree.now) }
    ensures mask { result.mask ≡ mask / 2 }
    ensures facts { AreAdded shared.now into (chosen mask (tree_of tree.now ∷ [])) result.facts }
{
    let facts = if mask % 2 == 1 {
        with_leaf(tree, number, known, shared, into)
    } else {
        into
    };
    Gathered {
        facts,
        mask: mask / 2,
    }
}

// With the facts of those leaves of the block whose bit of the mask is set.
fn with_leaves(
    tree: &Logical,
    number: usize,
    mask: u8,
    known: &[NodeFacts],
    shared: &[Facts],
    into: Facts,
) -> Gathered
    requires formed { IsFormed (lent_columns shared.now) (tree_of tree.now) }
    requires known { MayHaveFacts shared.now known.now (tree_of tree.now) number }
    requires over { IsOverColumns into }
    requires apart { IsApartFrom into.columns (tree_of tree.now) }
    ensures mask { result.mask ≡ bits_after (block_leaves (tree_of tree.now)) mask }
    ensures facts { AreAdded shared.now into (chosen mask (block_leaves (tree_of tree.now))) result.facts }
{
    let LogicOp::Join { .. } = &tree.op else {
        return with_chosen(tree, number, mask, known, shared, into);
    };
    match tree.kids.as_slice() {
        [left, right, ..] => {
            let first = left_of(known, number);
            let of_left = with_leaves(left, first, mask, known, shared, into);
            let last = number.saturating_sub(1);
            with_leaves(right, last, of_left.mask, known, shared, of_left.facts)
        }
        _ => with_chosen(tree, number, mask, known, shared, into),
    }
}

/// Of rows without columns nothing is known.
pub fn nothing_known() -> Facts
    ensures { IsBlank result }
{
    Facts::of_columns(ColSet::empty())
}

/// The facts of each join of the leaves of the block whose bit of the mask is set, bit 0 being that of the first from
/// the left. Where the facts of the nodes of the tree are known, those of the leaves are looked up.
pub fn block_facts(
    tree: &Logical,
    number: usize,
    mask: u8,
    known: &[NodeFacts],
    shared: &[Facts],
) -> Facts
    requires formed { IsFormed (lent_columns shared.now) (tree_of tree.now) }
    requires known { MayHaveFacts shared.now known.now (tree_of tree.now) number }
    ensures { AreFactsOfAll shared.now (block_pairs (tree_of tree.now)) (chosen mask (block_leaves (tree_of tree.now))) result }
{
    let gathered = with_leaves(tree, number, mask, known, shared, nothing_known());
    with_block_pairs(tree, gathered.facts)
}
