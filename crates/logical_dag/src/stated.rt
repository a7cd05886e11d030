// The facts that a node itself states: of its predicate, its items, its aggregates, or its pairs.
ghost use Rattle.std.specs.Prelude.{◌≡◌, ◌<◌, ◌⊎◌, ℕ, true, false, Some, All, Any, Contains, IsSomeAnd, MatchOption, slice_get, nat_eq};
ghost use Rattle.col_sets.specs.Sets.{has, IsColumnSet};
ghost use Rattle.fd_closure.specs.Known.{equal_of};
ghost use Rattle.logical_dag.specs.Facts.{IsColumnAndLiteral, AreColumns, SetsConstant, SetsEqual, is_column, is_literal, AreSameItem};
ghost use Rattle.logical_dag.specs.Known.{IsOwn, AreBelow, AreConstants, AreDependencies, AreClasses, IsDependency, IsItemEquated};

use crate::naming::{column_at, place_of};
use col_sets::{ColId, ColSet};
use fd_closure::Facts;
use logical_trees::Agg;
use scope_expr::{Expr, PairOp};

// Adds what an equation of two sides states: of a column and a literal a constant, of two columns that they are equal. Not
// inlined, as in `known.rt`: the recursion over the conjuncts of a predicate may be thousands of levels deep.
#[inline(never)]
fn with_equation(a: &Expr, b: &Expr, facts: &mut Facts)
    ensures rest { facts.new ≡ record facts.old { constants = facts.new.constants; class = facts.new.class } }
    ensures constants { AreConstants facts.new (λ c. (has facts.old.constants c ≡ true) ⊎ IsColumnAndLiteral c a.now b.now) }
    ensures classes { IsOwn facts.old → AreBelow (λ c d. AreColumns c d a.now b.now)
        → AreClasses facts.new (λ c d. (equal_of facts.old c d ≡ true) ⊎ AreColumns c d a.now b.now) }
{
    match a {
        Expr::Col(c, _) => match b {
            Expr::Col(d, _) => *facts = facts.with_equal(*c, *d),
            Expr::Literal(_) => *facts = facts.with_constant(*c),
            _ => {}
        },
        Expr::Literal(_) => match b {
            Expr::Col(d, _) => *facts = facts.with_constant(*d),
            _ => {}
        },
        _ => {}
    }
}

/// Adds what the conjuncts of a predicate state that holds of all rows.
pub fn with_conjuncts(e: &Expr, facts: &mut Facts)
    ensures rest { facts.new ≡ record facts.old { constants = facts.new.constants; class = facts.new.class } }
    ensures constants { AreConstants facts.new (λ c. (has facts.old.constants c ≡ true) ⊎ SetsConstant e.now c) }
    ensures classes { IsOwn facts.old → AreBelow (SetsEqual e.now)
        → AreClasses facts.new (λ c d. (equal_of facts.old c d ≡ true) ⊎ SetsEqual e.now c d) }
{
    match e {
        Expr::Pair(op, a, b) => match op {
            PairOp::And => {
                with_conjuncts(a.get(), facts);
                with_conjuncts(b.get(), facts);
            }
            PairOp::Eq => with_equation(a.get(), b.get(), facts),
            _ => {}
        },
        _ => {}
    }
}

// Whether the item is a literal.
fn is_literal(item: &Expr) -> bool
    ensures { result ≡ is_literal item.now }
{
    matches!(item, Expr::Literal(_))
}

// With the column of the item constant, if the item is a literal.
fn with_literal(item: &Expr, column: Option<ColId>, into: Facts) -> Facts
    ensures rest { result ≡ record into { constants = result.constants } }
    ensures constants { AreConstants result (λ c. (has into.constants c ≡ true) ⊎ ((is_literal item.now ≡ true) × (column ≡ Some c))) }
{
    if !is_literal(item) {
        return into;
    }
    match column {
        Some(c) => into.with_constant(c),
        None => into,
    }
}

/// With the columns of literal items constant.
pub fn with_literals(items: &[Expr], cols: ColSet, into: Facts) -> Facts
    ensures rest { result ≡ record into { constants = result.constants } }
    ensures constants { AreConstants result
        (λ c. (has into.constants c ≡ true) ⊎ ((i : ℕ) × (slice_get cols i ≡ Some c) × IsSomeAnd (slice_get items.now i) (λ e. is_literal e ≡ true))) }
{
    let mut all = into;
    for (i, item) in items.iter().enumerate() {
        all = with_literal(item, column_at(cols, i), all);
    }
    all
}

// The column that the item plainly is.
fn plain_column(item: &Expr) -> Option<ColId>
    ensures { MatchOption result
        ((b : ℕ) → is_column b item.now ≡ false)
        (λ c. (b : ℕ) → is_column b item.now ≡ nat_eq b c) }
{
    match item {
        Expr::Col(c, _) => Some(*c),
        _ => None,
    }
}

// With the column of the item at place `j` equal to that of the first item that is the same plain column.
fn with_same_item(items: &[Expr], cols: ColSet, j: usize, item: &Expr, into: Facts) -> Facts
    requires { slice_get items.now j ≡ Some item.now }
    ensures rest { result ≡ record into { class = result.class } }
    ensures equal { IsItemEquated items.now cols j into result }
{
    let Some(b) = plain_column(item) else {
        return into;
    };
    let Some(i) = place_of(items, b) else {
        return into;
    };
    if i >= j {
        return into;
    }
    let Some(d) = column_at(cols, j) else {
        return into;
    };
    match column_at(cols, i) {
        Some(c) => into.with_equal(c, d),
        None => into,
    }
}

/// With the columns of items equal that are the same plain column. Each item looks for the first that is the same, so the
/// steps are quadratic in the number of items, which is at most 128.
pub fn with_same_items(items: &[Expr], cols: ColSet, into: Facts) -> Facts
    requires set { IsColumnSet cols }
    requires own { IsOwn into }
    ensures rest { result ≡ record into { class = result.class } }
    ensures classes { AreClasses result (λ c d. (equal_of into c d ≡ true) ⊎ AreSameItem items.now cols c d) }
{
    let mut all = into;
    for (j, item) in items.iter().enumerate() {
        all = with_same_item(items, cols, j, item, all);
    }
    all
}

/// With all these columns constant.
pub fn with_constant_aggregates(aggs: &[Agg], into: Facts) -> Facts
    ensures rest { result ≡ record into { constants = result.constants } }
    ensures constants { AreConstants result (λ c. (has into.constants c ≡ true) ⊎ Any (λ a. a.id ≡ c) aggs.now) }
{
    let mut all = into;
    for agg in aggs {
        all = all.with_constant(agg.id);
    }
    all
}

/// With the columns of the aggregates dependent on the key.
pub fn with_keyed_aggregates(keys: ColSet, aggs: &[Agg], into: Facts) -> Facts
    requires below { All (λ a. a.id < 128) aggs.now }
    requires free { All (λ a. has into.determined a.id ≡ false) aggs.now }
    ensures rest { result ≡ record into { determined = result.determined; by = result.by } }
    ensures dependencies { AreDependencies result (λ s c. IsDependency into s c ⊎ ((s ≡ keys) × Any (λ a. a.id ≡ c) aggs.now)) }
{
    let mut all = into;
    for agg in aggs {
        all = all.with_dependency(keys, agg.id);
    }
    all
}

/// With the columns of each pair equal.
pub fn with_pairs(on: &[(ColId, ColId)], into: Facts) -> Facts
    requires below { All (λ p. (p.0 < 128) × (p.1 < 128)) on.now }
    requires own { IsOwn into }
    ensures rest { result ≡ record into { class = result.class } }
    ensures classes { AreClasses result (λ c d. (equal_of into c d ≡ true) ⊎ Contains on.now (c, d)) }
{
    let mut all = into;
    for pair in on {
        all = all.with_equal(pair.0, pair.1);
    }
    all
}
