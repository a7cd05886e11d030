// The expressions whose facts are worked out.
ghost use Rattle.std.specs.Prelude.{◌≡◌, [], ◌∷◌, IfOk};
ghost use Rattle.logical_trees.specs.Tree.{tree_of};
ghost use Rattle.logic_tests.specs.Worked as spec;
ghost use Rattle.logical_trees.specs.Worked as worked;

use crate::making::{beside_scan, column, number, on_pair, over, pair, scan};
use col_sets::ColSet;
use logical_dag::{Agg, GroupArgs, LogicOp, Logical};
use scope_expr::{AggKind, Expr, PairOp};
use sqlite_items::{Boxed, Items};
use std::alloc::{AllocError, Global};

/// Columns 0 to 3.
pub fn four_columns() -> ColSet
    ensures { result ≡ 0 ∷ 1 ∷ 2 ∷ 3 ∷ [] }
{
    ColSet::empty().with(0).with(1).with(2).with(3)
}

// `0 == 1 && 1 == 2`.
fn links(alloc: Global) -> Result<Expr, AllocError>
    ensures { IfOk result (λ e. e ≡ spec.links) }
{
    let first = pair(alloc, PairOp::Eq, column(0), column(1))?;
    let second = pair(alloc, PairOp::Eq, column(1), column(2))?;
    pair(alloc, PairOp::And, first, second)
}

// With `&& 3 == 7`.
fn fixed_links(alloc: Global) -> Result<Expr, AllocError>
    ensures { IfOk result (λ e. e ≡ spec.fixed_links) }
{
    let links = links(alloc)?;
    let constant = pair(alloc, PairOp::Eq, column(3), number(7))?;
    pair(alloc, PairOp::And, links, constant)
}

// `0 == -5`.
fn signed(alloc: Global) -> Result<Expr, AllocError>
    ensures { IfOk result (λ e. e ≡ spec.signed) }
{
    let five = Boxed::new(alloc, number(5))?;
    pair(alloc, PairOp::Eq, column(0), Expr::Neg(five))
}

// `0 == 1 && 1 == 2 && 3 == 7 && 0 == -5`.
fn linking(alloc: Global) -> Result<Expr, AllocError>
    ensures { IfOk result (λ e. e ≡ spec.linking) }
{
    let fixed = fixed_links(alloc)?;
    let signed = signed(alloc)?;
    pair(alloc, PairOp::And, fixed, signed)
}

/// The rows of columns 0 to 3 where the columns 0, 1 and 2 are equal, column 3 is 7, and column 0 is a signed number.
pub fn linked(alloc: Global) -> Result<Logical, AllocError>
    ensures { IfOk result (λ t. tree_of t ≡ spec.linked) }
{
    let rows = scan(alloc, 0, four_columns());
    over(alloc, LogicOp::Filter(linking(alloc)?), rows)
}

// COUNT(*) as column 4, by column 1.
fn counting(alloc: Global) -> Result<GroupArgs, AllocError>
    ensures { IfOk result (λ args. args ≡ worked.counting) }
{
    let mut aggs = Items::new(alloc);
    aggs.push(Agg {
        kind: AggKind::Count,
        arg: None,
        id: 4,
    })?;
    Ok(GroupArgs {
        written: None,
        keys: ColSet::empty().with(1),
        aggs,
    })
}

/// COUNT(*) of these rows by column 1.
pub fn counted(alloc: Global) -> Result<Logical, AllocError>
    ensures { IfOk result (λ t. tree_of t ≡ spec.counted) }
{
    over(alloc, LogicOp::Group(counting(alloc)?), linked(alloc)?)
}

/// Rows of column 0 with those of columns 1 and 2 that agree in 0 and 1, and these with rows of column 3 that agree in 1
/// and 3.
pub fn three_joined(alloc: Global) -> Result<Logical, AllocError>
    ensures { IfOk result (λ t. tree_of t ≡ worked.three_joined) }
{
    let first = scan(alloc, 0, ColSet::empty().with(0));
    let second = ColSet::empty().with(1).with(2);
    let third = ColSet::empty().with(3);
    let two = beside_scan(alloc, on_pair(0, 1), first, 1, second)?;
    beside_scan(alloc, on_pair(1, 3), two, 2, third)
}
