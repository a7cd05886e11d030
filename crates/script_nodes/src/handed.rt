// What nodes are handed: calls, items and aggregates, in columns.
ghost use Rattle.std.specs.Prelude.{◌≡◌, ◌+◌, ◌≤◌, map, option_map, length, All, IfOk};
ghost use Rattle.col_sets.specs.Keys.{IsBelow};
ghost use Rattle.col_sets.specs.Sets.{IsColumnSet};
ghost use Rattle.scope_expr.specs.Moved.{moved};
ghost use Rattle.script_meaning.specs.Part.{call_at, numbered, listed};
ghost use Rattle.script_meaning.specs.Placed.{IsBelowOpt, AreBelow, AreArgsBelow, ArePlaces};
ghost use Rattle.script_meaning.specs.Placed as placed;
ghost use Rattle.script_nodes.specs.Steps.{column_at};

use crate::columns::fresh_set;
use crate::keys::written_in;
use col_sets::{ColId, ColSet};
use logical_dag::{Agg, CallArgs, GroupArgs};
use names_in_sight::copies::copied_cells;
use placed_trees::{Call, Grouping};
use scope_expr::Expr;
use script_trees::AggKind;
use sqlite_items::Items;
use std::alloc::{AllocError, Global};

/// The call, with its columns numbered from here on. An error is want of memory.
pub(crate) fn call_in(alloc: Global, call: &Call, next: u32) -> Result<CallArgs, AllocError>
    requires { next + length call.now.output ≤ 128 }
    ensures { IfOk result (λ args. args ≡ call_at call.now next) }
{
    let cols = fresh_set(alloc, next, call.output.len())?;
    let args = copied_cells(alloc, call.args.as_slice())?;
    let output = call.output.copy()?;
    Ok(CallArgs {
        op: call.op,
        args,
        cols,
        output,
    })
}

/// The expression over these columns. An error is want of memory.
#[tactic(auto, using(crate::proofs::Agree::named_same))]
pub(crate) fn expr_in(alloc: Global, cols: &[ColId], e: &Expr) -> Result<Expr, AllocError>
    requires { placed.IsBelow (length cols.now) e.now }
    ensures { IfOk result (λ f. f ≡ moved (column_at cols.now) e.now) }
{
    e.renamed(alloc, cols)
}

/// The expressions over these columns. An error is want of memory.
#[tactic(auto, using(crate::proofs::Places::expr_there))]
pub(crate) fn exprs_in(
    alloc: Global,
    cols: &[ColId],
    items: &[Expr],
) -> Result<Items<Expr>, AllocError>
    requires { AreBelow (length cols.now) items.now }
    ensures { IfOk result (λ es. es ≡ map (moved (column_at cols.now)) items.now) }
{
    let mut all = Items::new(alloc);
    for item in items {
        all.push(expr_in(alloc, cols, item)?)?;
    }
    Ok(all)
}

fn argument_in(
    alloc: Global,
    cols: &[ColId],
    arg: &Option<Expr>,
) -> Result<Option<Expr>, AllocError>
    requires { IsBelowOpt (length cols.now) arg.now }
    ensures { IfOk result (λ e. e ≡ option_map (moved (column_at cols.now)) arg.now) }
{
    match arg {
        Some(e) => Ok(Some(expr_in(alloc, cols, e)?)),
        None => Ok(None),
    }
}

/// The aggregates over these columns, numbered from here on. An error is want of memory.
#[tactic(auto, using(crate::proofs::Places::argument_there, crate::proofs::Places::numbered_more))]
pub(crate) fn aggs_in(
    alloc: Global,
    cols: &[ColId],
    aggs: &[(AggKind, Option<Expr>)],
    next: u32,
) -> Result<Items<Agg>, AllocError>
    requires below { AreArgsBelow (length cols.now) aggs.now }
    requires room { next + length aggs.now ≤ 128 }
    ensures { IfOk result (λ all. all ≡ numbered (column_at cols.now) next aggs.now) }
{
    let mut all = Items::new(alloc);
    let mut id = next;
    for agg in aggs {
        let arg = argument_in(alloc, cols, &agg.1)?;
        all.push(Agg {
            kind: agg.0,
            arg,
            id,
        })?;
        id += 1;
    }
    Ok(all)
}

/// A grouping over these columns, of which these are its keys; its aggregates are numbered from here on. An error is want of memory.
pub(crate) fn group_in(
    alloc: Global,
    group: &Grouping,
    cols: &[ColId],
    keys: &[ColId],
    next: u32,
) -> Result<GroupArgs, AllocError>
    requires few { length group.now.written ≤ 4 }
    requires there { ArePlaces (length cols.now) group.now.written }
    requires below { AreArgsBelow (length cols.now) group.now.aggs }
    requires columns { All IsBelow cols.now }
    requires set { IsColumnSet keys.now }
    requires room { next + length group.now.aggs ≤ 128 }
    ensures { IfOk result (λ args. args ≡ record {
      written = option_map (map (column_at cols.now)) (listed group.now.written);
      keys = keys.now;
      aggs = numbered (column_at cols.now) next group.now.aggs;
    }) }
{
    let aggs = aggs_in(alloc, cols, group.aggs.as_slice(), next)?;
    Ok(GroupArgs {
        written: written_in(cols, group.written.as_slice()),
        keys: ColSet::of(keys),
        aggs,
    })
}
