// A SELECT from inside.
ghost use Rattle.std.specs.Prelude.{◌≡◌, IfOk};
ghost use Rattle.names_in_sight.specs.Views as spec;
ghost use Rattle.names_in_sight.specs.Sight as sight_spec;
ghost use Rattle.names_in_sight.specs.Inputs.{before_of};

use crate::finding::Finds;
use crate::groups::grouping_of;
use crate::input::Input;
use crate::inputs::inputs_of;
use crate::seen::{heading, item_scope, outputs_of};
use crate::sight::{sight_of, sight_of_columns};
use crate::view::View;
use placed_trees::Grouping;
use scope_expr::{Expr, Scope};
use scope_value::{Cell, Schema};
use script_trees::{Items as Listing, Select, Statement};
use sqlite_items::Items;
use std::alloc::{AllocError, Global};

// What the items see, what they give, and what HAVING and ORDER BY see.
#[derive(Drop)]
struct Inside {
    inner: Scope,
    outputs: Items<(Cell, Expr)>,
    result: Scope,
}

// The columns that the items give, as HAVING and ORDER BY see them.
fn result_scope(alloc: Global, outputs: &[(Cell, Expr)]) -> Result<Scope, AllocError>
    ensures { IfOk result (λ names. names ≡ sight_spec.sight_of_columns (spec.heading outputs.now)) }
{
    let columns = heading(alloc, outputs)?;
    sight_of_columns(alloc, columns.as_slice())
}

fn inside_of(
    alloc: Global,
    names: &Scope,
    grouping: &Option<Grouping>,
    items: &Listing,
) -> Result<Inside, AllocError>
    ensures inner { IfOk result (λ i. i.inner ≡ spec.item_scope names.now grouping.now) }
    ensures outputs { IfOk result (λ i. i.outputs ≡ spec.outputs_of (spec.item_scope names.now grouping.now) items.now) }
    ensures result { IfOk result (λ i. i.result ≡ sight_spec.sight_of_columns (spec.heading (spec.outputs_of (spec.item_scope names.now grouping.now) items.now))) }
{
    let inner = item_scope(alloc, names, grouping)?;
    let outputs = outputs_of(alloc, &inner, items)?;
    let result = result_scope(alloc, outputs.as_slice())?;
    Ok(Inside {
        inner,
        outputs,
        result,
    })
}

// The view of a SELECT of these inputs, whose columns have these names.
fn view_from(
    alloc: Global,
    inputs: Items<Input>,
    names: Scope,
    select: &Select,
) -> Result<View, AllocError>
    ensures { IfOk result (λ v. v ≡ spec.grouped_view inputs names (spec.grouping_of names select.now) select.now.items) }
{
    let grouping = grouping_of(alloc, &names, select)?;
    let Inside {
        inner,
        outputs,
        result,
    } = inside_of(alloc, &names, &grouping, &select.items)?;
    Ok(View {
        inputs,
        names,
        grouping,
        inner,
        outputs,
        result,
    })
}

/// A SELECT from inside. An error is want of memory.
pub fn view_of<O: Finds>(
    alloc: Global,
    ops: &O,
    statements: &[Statement],
    headings: &[Schema],
    select: &Select,
) -> Result<View, AllocError>
    ensures { IfOk result (λ view. view ≡ spec.view_of (O.tells ops.now) (before_of statements.now headings.now) select.now) }
{
    let inputs = inputs_of(alloc, ops, statements, headings, select.sources.as_slice())?;
    let names = sight_of(alloc, inputs.as_slice())?;
    view_from(alloc, inputs, names, select)
}
