// Trees and predicates that are as deep as a script can make them, or deeper: their facts are found within the stack.
ghost use Rattle.std.specs.Prelude.{◌≡◌, IfOk};
ghost use Rattle.logical_trees.specs.Tree.{leaf, tree_of};
ghost use Rattle.logical_trees.specs.Formed.{IsOver};
ghost use Rattle.logic_tests.specs.Tall.{four_columns, IsOverFour};

use crate::making::{column, number, over, pair, scan, set_of};
use crate::trees::four_columns;
use col_sets::ColSet;
use fd_closure::{Facts, closure};
use logical_dag::{LogicOp, Logical, facts_of};
use scope_expr::{Expr, PairOp};
use std::alloc::{AllocError, Global};
use std::test::Fail;

// `0 == 1`.
fn link(alloc: Global) -> Result<Expr, AllocError>
    ensures { IfOk result (IsOver four_columns) }
{
    pair(alloc, PairOp::Eq, column(0), column(1))
}

// `3 == 7`.
fn constant(alloc: Global) -> Result<Expr, AllocError>
    ensures { IfOk result (IsOver four_columns) }
{
    pair(alloc, PairOp::Eq, column(3), number(7))
}

// `0 == 1` over and over, then `3 == 7`, each `&&` being on the left of the next.
fn conjuncts(alloc: Global, count: u32) -> Result<Expr, AllocError>
    ensures { IfOk result (IsOver four_columns) }
{
    let mut all = link(alloc)?;
    for _ in 2..count {
        all = pair(alloc, PairOp::And, all, link(alloc)?)?;
    }
    pair(alloc, PairOp::And, all, constant(alloc)?)
}

// Rows of columns 0 to 3.
fn rows(alloc: Global) -> Logical
    ensures { tree_of result ≡ leaf (LogicOp.Scan 0 four_columns) }
{
    scan(alloc, 0, four_columns())
}

// Those of them of which the predicate holds.
fn filtered(alloc: Global, predicate: Expr) -> Result<Logical, AllocError>
    requires { IsOver four_columns predicate }
    ensures { IfOk result (λ t. IsOverFour (tree_of t)) }
{
    over(alloc, LogicOp::Filter(predicate), rows(alloc))
}

// A Filter by `3 == 7`, and Filters by `0 == 1` over one another above it.
fn filters(alloc: Global, count: u32) -> Result<Logical, AllocError>
    ensures { IfOk result (λ t. IsOverFour (tree_of t)) }
{
    let mut tree = filtered(alloc, constant(alloc)?)?;
    for _ in 1..count {
        tree = over(alloc, LogicOp::Filter(link(alloc)?), tree)?;
    }
    Ok(tree)
}

// Columns 0 and 1 are equal, and column 3 is constant.
fn are_linked(facts: &Facts) -> bool {
    facts.columns == set_of(&[0, 1, 2, 3])
        && facts.constants == set_of(&[3])
        && closure(facts, set_of(&[0])) == set_of(&[0, 1, 3])
        && closure(facts, set_of(&[2])) == set_of(&[2, 3])
        && closure(facts, ColSet::empty()) == set_of(&[3])
}

// An expression of the table.
#[derive(Clone, Copy)]
enum Tall {
    /// A script's expressions can be some 450 levels high.
    Filters(u32),
    /// Filters that are merged into one can have some 6,400 conjuncts.
    Conjuncts(u32),
}

fn tall_tree(alloc: Global, what: Tall) -> Result<Logical, AllocError>
    ensures { IfOk result (λ t. IsOverFour (tree_of t)) }
{
    match what {
        Tall::Filters(count) => filters(alloc, count),
        Tall::Conjuncts(count) => filtered(alloc, conjuncts(alloc, count)?),
    }
}

fn is_known(alloc: Global, what: Tall) -> Result<bool, AllocError> {
    let tree = tall_tree(alloc, what)?;
    Ok(are_linked(&facts_of(&tree, &[])))
}

#[test]
fn tall_expressions_have_facts(rt: HostRuntime) -> Result<(), Fail> {
    for what in [Tall::Filters(640), Tall::Conjuncts(6400)] {
        assert!(rt; is_known(rt.alloc(), what)?);
    }
    Ok(())
}
