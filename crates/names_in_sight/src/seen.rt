// What the items of a SELECT see, and what they give.
ghost use Rattle.std.specs.Prelude.{◌≡◌, map, IfOk};
ghost use Rattle.scope_expr.specs.declared.expr.Expr.TheVariants.{Col};
ghost use Rattle.scope_expr.specs.Names.{bound};
ghost use Rattle.names_in_sight.specs.Views as spec;

use crate::copies::copied_name;
use crate::groups::{agg_columns, group_entries};
use placed_trees::Grouping;
use scope_expr::{Entry, Expr, Scope, bind, kind_of};
use scope_value::{Cell, Column, Schema};
use script_trees::{Item, Items as Listing};
use sqlite_items::Items;
use std::alloc::{AllocError, Global};

fn copied_entry(entry: &Entry) -> Result<Entry, AllocError>
    ensures { IfOk result (λ copy. copy ≡ entry.now) }
{
    Ok(Entry {
        alias: copied_name(&entry.alias)?,
        name: entry.name.copy()?,
        id: entry.id,
        kind: entry.kind,
    })
}

fn copied_entries(alloc: Global, entries: &[Entry]) -> Result<Items<Entry>, AllocError>
    ensures { IfOk result (λ copy. copy ≡ entries.now) }
{
    let mut copy = Items::new(alloc);
    for entry in entries {
        copy.push(copied_entry(entry)?)?;
    }
    Ok(copy)
}

fn copied_scope(alloc: Global, names: &Scope) -> Result<Scope, AllocError>
    ensures { IfOk result (λ copy. copy ≡ names.now) }
{
    let entries = copied_entries(alloc, names.entries.as_slice())?;
    let aggs = Items::from_slice(alloc, names.aggs.as_slice())?;
    Ok(Scope { entries, aggs })
}

/// What the items see: the columns of the inputs, and in a grouped SELECT those of GROUP BY and the aggregates. An error is want of memory.
pub fn item_scope(
    alloc: Global,
    names: &Scope,
    grouping: &Option<Grouping>,
) -> Result<Scope, AllocError>
    ensures { IfOk result (λ inner. inner ≡ spec.item_scope names.now grouping.now) }
{
    match grouping {
        Some(g) => {
            let entries = group_entries(alloc, names, g.written.as_slice())?;
            let aggs = agg_columns(alloc, entries.len(), g.aggs.as_slice())?;
            Ok(Scope { entries, aggs })
        }
        None => copied_scope(alloc, names),
    }
}

// Each column in sight, under its name.
fn all_outputs(alloc: Global, entries: &[Entry]) -> Result<Items<(Cell, Expr)>, AllocError>
    ensures { IfOk result (λ outputs. outputs ≡ map (λ e. (e.name, Col e.id e.kind)) entries.now) }
{
    let mut outputs = Items::new(alloc);
    for entry in entries {
        outputs.push((entry.name.copy()?, Expr::Col(entry.id, entry.kind)))?;
    }
    Ok(outputs)
}

// An item's name, and its expression with its columns by place.
fn output_of(alloc: Global, names: &Scope, item: &Item) -> Result<(Cell, Expr), AllocError>
    ensures { IfOk result (λ o. o ≡ (item.now.name, bound names.now item.now.expr)) }
{
    Ok((item.name.copy()?, bind(alloc, names, &item.expr)?))
}

fn listed_outputs(
    alloc: Global,
    names: &Scope,
    items: &[Item],
) -> Result<Items<(Cell, Expr)>, AllocError>
    ensures { IfOk result (λ outputs. outputs ≡ map (λ x. (x.name, bound names.now x.expr)) items.now) }
{
    let mut outputs = Items::new(alloc);
    for item in items {
        outputs.push(output_of(alloc, names, item)?)?;
    }
    Ok(outputs)
}

/// The name and the expression of each column that the items give. An error is want of memory.
pub fn outputs_of(
    alloc: Global,
    names: &Scope,
    items: &Listing,
) -> Result<Items<(Cell, Expr)>, AllocError>
    ensures { IfOk result (λ outputs. outputs ≡ spec.outputs_of names.now items.now) }
{
    match items {
        Listing::All => all_outputs(alloc, names.entries.as_slice()),
        Listing::Listed(items) => listed_outputs(alloc, names, items.as_slice()),
    }
}

/// The columns that they give. An error is want of memory.
pub fn heading(alloc: Global, outputs: &[(Cell, Expr)]) -> Result<Schema, AllocError>
    ensures { IfOk result (λ columns. columns ≡ spec.heading outputs.now) }
{
    let mut columns = Schema::new(alloc);
    for output in outputs {
        columns.push(Column {
            name: output.0.copy()?,
            kind: kind_of(&output.1),
        })?;
    }
    Ok(columns)
}

/// Their expressions. An error is want of memory.
pub fn exprs_of(alloc: Global, outputs: &[(Cell, Expr)]) -> Result<Items<Expr>, AllocError>
    ensures { IfOk result (λ exprs. exprs ≡ map (λ o. o.1) outputs.now) }
{
    let mut exprs = Items::new(alloc);
    for output in outputs {
        exprs.push(output.1.copy(alloc)?)?;
    }
    Ok(exprs)
}
