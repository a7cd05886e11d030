// What is known of the rows of an expression. Facts have 2.6 KB, and a tree may be hundreds of levels high: the recursion
// works them out in one place, and what holds facts by value is not inlined, so that no level's frame has room for them.
ghost use Rattle.std.specs.Prelude.{◌<◌, All, Some};
ghost use Rattle.col_sets.specs.Sets.{IsColumnSet};
ghost use Rattle.logical_trees.specs.declared.logic_op.LogicOp.TheVariants.{Project, Group};
ghost use Rattle.logical_trees.specs.Tree as tree;
ghost use Rattle.logical_trees.specs.Tree.{leaf, tree_of};
ghost use Rattle.logical_trees.specs.Formed.{IsFormed, IsOver, IsGroup, IsOneFormed, IsTwoFormed};
ghost use Rattle.logical_dag.specs.Facts.{ref_name, key_name, AreFactsOf};
ghost use Rattle.logical_dag.specs.Known.{IsLentSet, name_of, IsNaming, IsOwn, AreRenamed, AreAbove, AreJoined, AreApart, AreFactsAbove, AreFactsOver, IsJoinApart, IsLeftOf, AreFactsBeside};
ghost use Rattle.logical_dag.specs.Laws.{lent_columns, HoldOf, DoFactsHold};

use crate::carried::{carried, with_equalities, with_same_dependencies};
use crate::naming::{Names, item_names, key_names, ref_names};
use crate::stated::{
    with_conjuncts, with_constant_aggregates, with_keyed_aggregates, with_literals, with_pairs,
    with_same_items,
};
use col_sets::{ColId, ColSet};
use fd_closure::Facts;
use logical_trees::{GroupArgs, LogicOp, Logical, group_columns};
use scope_expr::Expr;

// A set has its columns in ascending order, below 128.
fn is_ascending(set: ColSet)
    ensures { IsColumnSet set }
{
    let _ = set.count();
}

// The facts under new names, of rows over these columns.
fn renamed(from: &Facts, names: &Names, cols: ColSet) -> Facts
    requires { IsNaming (name_of names.now) }
    ensures { AreRenamed from.now (name_of names.now) cols result }
{
    carried(from, names, Facts::of_columns(cols))
}

// The facts of a shared result in a Ref.
fn referred(lent: &Facts, cols: ColSet) -> Facts
    requires { IsColumnSet cols }
    ensures set { IsColumnSet lent.now.columns }
    ensures value { AreRenamed lent.now (ref_name lent.now.columns cols) cols result }
{
    is_ascending(lent.columns);
    let names = ref_names(lent.columns, cols);
    renamed(lent, &names, cols)
}

// The facts above a projection.
fn projected(items: &[Expr], cols: ColSet, below: &Facts) -> Facts
    requires set { IsColumnSet cols }
    requires over { All (IsOver below.now.columns) items.now }
    ensures { AreAbove (Project items.now cols) below.now result }
{
    is_ascending(below.columns);
    let names = item_names(items, cols);
    let plain = renamed(below, &names, cols);
    with_same_items(items, cols, with_literals(items, cols, plain))
}

/// The facts of the key above a grouping.
pub(crate) fn keyed(args: &GroupArgs, below: &Facts) -> Facts
    requires { IsGroup args.now }
    ensures { AreRenamed below.now (key_name args.now.keys) (tree.group_columns args.now) result }
{
    let names = key_names(args.keys);
    renamed(below, &names, group_columns(args))
}

// The facts above a grouping.
fn grouped(args: &GroupArgs, below: &Facts) -> Facts
    requires { IsGroup args.now }
    ensures { AreAbove (Group args.now) below.now result }
{
    let key = keyed(args, below);
    if args.keys.count() == 0 {
        with_constant_aggregates(args.aggs.as_slice(), key)
    } else {
        with_keyed_aggregates(args.keys, args.aggs.as_slice(), key)
    }
}

/// The facts of a join, of those of both sides.
pub(crate) fn joined(on: &[(ColId, ColId)], left: Facts, right: &Facts) -> Facts
    requires own { IsOwn left }
    requires apart { AreApart left right.now }
    requires below { All (λ p. (p.0 < 128) × (p.1 < 128)) on.now }
    ensures { AreJoined on.now left right.now result }
{
    is_ascending(right.columns);
    let names = key_names(right.columns);
    let beside = Facts {
        columns: left.columns.union(right.columns),
        constants: left.constants.union(right.constants),
        ..left
    };
    let depends = with_same_dependencies(right, beside);
    with_pairs(on, with_equalities(right, &names, depends))
}

/// Puts the facts of a node without children.
#[inline(never)]
pub(crate) fn leaf_facts(op: &LogicOp, shared: &[Facts], facts: &mut Facts)
    requires { IsFormed (lent_columns shared.now) (leaf op.now) }
    ensures value { AreFactsOf shared.now (leaf op.now) facts.new }
    ensures set { IsLentSet shared.now (leaf op.now) }
{
    match op {
        LogicOp::Ref {
            shared: number,
            cols,
        } => match shared.get(*number as usize) {
            Some(lent) => *facts = referred(lent, *cols),
            None => *facts = Facts::of_columns(*cols),
        },
        LogicOp::Scan { cols, .. } => *facts = Facts::of_columns(*cols),
        _ => *facts = Facts::of_columns(ColSet::empty()),
    }
}

/// Makes of the facts below a node those of the node.
#[inline(never)]
pub(crate) fn facts_above(op: &LogicOp, facts: &mut Facts)
    requires formed { IsOneFormed facts.old.columns op.now }
    requires own { IsOwn facts.old }
    ensures { AreFactsAbove op.now facts.old facts.new }
{
    match op {
        LogicOp::Filter(e) => with_conjuncts(e, facts),
        LogicOp::Project { items, cols } => *facts = projected(items.as_slice(), *cols, facts),
        LogicOp::Group(args) => *facts = grouped(args, facts),
        LogicOp::Finish(args) => *facts = grouped(args, facts),
        LogicOp::Partial(args) => *facts = keyed(args, facts),
        LogicOp::Process(call) => *facts = Facts::of_columns(call.cols),
        LogicOp::Reduce { call, .. } => *facts = Facts::of_columns(call.cols),
        _ => {}
    }
}

/// Makes of the facts on the left of a node, with those on the right, those of the node.
#[inline(never)]
pub(crate) fn facts_over(op: &LogicOp, facts: &mut Facts, right: &Facts)
    requires formed { IsTwoFormed facts.old.columns right.now.columns op.now }
    requires own { IsOwn facts.old }
    requires apart { IsJoinApart op.now facts.old right.now }
    ensures { AreFactsOver op.now facts.old right.now facts.new }
{
    match op {
        LogicOp::Join { on } => {
            is_ascending(facts.columns);
            is_ascending(right.columns);
            *facts = joined(on.as_slice(), *facts, right);
        }
        LogicOp::Combine { call, .. } => *facts = Facts::of_columns(call.cols),
        _ => *facts = Facts::of_columns(facts.columns.union(right.columns)),
    }
}

// Puts the facts of the expression, as `facts_of` gives them; what the facts hold of follows from that.
#[cycle(known)]
fn known_of(tree: &Logical, shared: &[Facts], facts: &mut Facts)
    requires { IsFormed (lent_columns shared.now) (tree_of tree.now) }
    ensures value { AreFactsOf shared.now (tree_of tree.now) facts.new }
    ensures set { IsLentSet shared.now (tree_of tree.now) }
{
    match tree.kids.as_slice() {
        [] => leaf_facts(&tree.op, shared, facts),
        [below] => {
            known_of(below, shared, facts);
            facts_above(&tree.op, facts);
        }
        [left, right, ..] => {
            known_of(left, shared, facts);
            known_beside(&tree.op, right, shared, facts);
        }
    }
}

// Makes of the facts on the left of a node those of the node. The facts of the expression on the right are in this frame.
#[cycle(known)]
#[inline(never)]
fn known_beside(op: &LogicOp, right: &Logical, shared: &[Facts], facts: &mut Facts)
    requires { IsLeftOf shared.now op.now (tree_of right.now) facts.old }
    ensures value { AreFactsBeside shared.now op.now (tree_of right.now) facts.old facts.new }
    ensures set { IsLentSet shared.now (tree_of right.now) }
{
    let mut beside = Facts::of_columns(ColSet::empty());
    known_of(right, shared, &mut beside);
    facts_over(op, facts, &beside);
}

/// The facts of an expression, where `shared` has those of each shared result that it refers to, by number.
pub fn facts_of(tree: &Logical, shared: &[Facts]) -> Facts
    requires { IsFormed (lent_columns shared.now) (tree_of tree.now) }
    ensures value { AreFactsOf shared.now (tree_of tree.now) result }
    ensures hold { HoldOf shared.now (tree_of tree.now) result }
{
    let mut facts = Facts::of_columns(ColSet::empty());
    known_of(tree, shared, &mut facts);
    facts
}

/// The facts of an expression hold of each bag that stands for it, where those that are lent hold of theirs.
pub fn facts_law()
    ensures { DoFactsHold }
{}
