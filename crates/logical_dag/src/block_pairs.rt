// The pairs of a join block, of which those count whose columns are both there.
ghost use Rattle.std.specs.Prelude.{◌≡◌, ◌⊎◌, true, [], ◌∷◌};
ghost use Rattle.col_sets.specs.Sets.{IsColumnSet};
ghost use Rattle.fd_closure.specs.Known.{equal_of};
ghost use Rattle.logical_trees.specs.Tree.{tree_of};
ghost use Rattle.logical_dag.specs.Known.{IsOwn, AreClasses};
ghost use Rattle.logical_trees.specs.Blocks.{block_pairs};
ghost use Rattle.logical_dag.specs.BlockFacts.{IsInside};

use col_sets::ColId;
use fd_closure::Facts;
use logical_trees::{LogicOp, Logical};

// With the columns of the pair equal, if both are there.
fn with_pair(a: ColId, b: ColId, facts: Facts) -> Facts
    requires set { IsColumnSet facts.columns }
    requires own { IsOwn facts }
    ensures rest { result ≡ record facts { class = result.class } }
    ensures classes { AreClasses result (λ c d. (equal_of facts c d ≡ true) ⊎ IsInside ((a, b) ∷ []) facts.columns c d) }
{
    if facts.columns.has(a) && facts.columns.has(b) {
        facts.with_equal(a, b)
    } else {
        facts
    }
}

// With each pair that lies inside.
fn with_pairs(pairs: &[(ColId, ColId)], facts: Facts) -> Facts
    requires set { IsColumnSet facts.columns }
    requires own { IsOwn facts }
    ensures rest { result ≡ record facts { class = result.class } }
    ensures classes { AreClasses result (λ c d. (equal_of facts c d ≡ true) ⊎ IsInside pairs.now facts.columns c d) }
{
    let mut all = facts;
    for (a, b) in pairs {
        all = with_pair(*a, *b, all);
    }
    all
}

/// With each pair of the block that lies inside.
pub fn with_block_pairs(tree: &Logical, facts: Facts) -> Facts
    requires set { IsColumnSet facts.columns }
    requires own { IsOwn facts }
    ensures rest { result ≡ record facts { class = result.class } }
    ensures classes { AreClasses result (λ c d. (equal_of facts c d ≡ true) ⊎ IsInside (block_pairs (tree_of tree.now)) facts.columns c d) }
{
    let LogicOp::Join { on } = &tree.op else {
        return facts;
    };
    match tree.kids.as_slice() {
        [left, right, ..] => {
            let of_left = with_block_pairs(left, facts);
            let of_both = with_block_pairs(right, of_left);
            with_pairs(on.as_slice(), of_both)
        }
        _ => facts,
    }
}
