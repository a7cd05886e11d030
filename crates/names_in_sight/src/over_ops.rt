// The same over a set of operators: what callers use.
ghost use Rattle.std.specs.Prelude.{◌≡◌, IfOk};
ghost use Rattle.names_in_sight.specs.Inputs.{before_of};
ghost use Rattle.names_in_sight.specs.Inputs as inputs_spec;
ghost use Rattle.names_in_sight.specs.Operators as operators_spec;
ghost use Rattle.names_in_sight.specs.Views as views_spec;

use crate::finding::Finds;
use crate::input::Input;
use crate::view::View;
use crate::{inputs as reading, views};
use scope_value::{Cell, Schema};
use script_trees::{Joined, Select, Source, Statement};
use sqlite_items::Items;
use std::alloc::{AllocError, Global};
use user_ops::{OpSet, Tells};

/// The fixed columns of the extractor of that name; none where it has none, or isn't there. An error is want of memory.
pub fn inline_columns(alloc: Global, ops: &OpSet, name: &Cell) -> Result<Schema, AllocError>
    ensures { IfOk result (λ columns. columns ≡ operators_spec.inline_columns (⟦<OpSet as Tells>⟧.tells ops.now) name.now) }
{
    ops.columns_inline(alloc, name.as_slice())
}

/// What is read of a source. `statements` and `headings` are what stands before the statement: its statements, and the columns of the
/// result of each. An error is want of memory.
pub fn input_of(
    alloc: Global,
    ops: &OpSet,
    statements: &[Statement],
    headings: &[Schema],
    source: &Source,
) -> Result<Input, AllocError>
    ensures { IfOk result (λ i. i ≡ inputs_spec.input_of (⟦<OpSet as Tells>⟧.tells ops.now) (before_of statements.now headings.now) source.now) }
{
    reading::input_of(alloc, ops, statements, headings, source)
}

/// The same, and the result of the statement just before where the source is left out. An error is want of memory.
pub fn input_of_opt(
    alloc: Global,
    ops: &OpSet,
    statements: &[Statement],
    headings: &[Schema],
    source: &Option<Source>,
) -> Result<Input, AllocError>
    ensures { IfOk result (λ i. i ≡ inputs_spec.input_of_opt (⟦<OpSet as Tells>⟧.tells ops.now) (before_of statements.now headings.now) source.now) }
{
    reading::input_of_opt(alloc, ops, statements, headings, source)
}

/// What is read by a FROM, source by source; the result of the statement just before where it is left out. An error is want of memory.
pub fn inputs_of(
    alloc: Global,
    ops: &OpSet,
    statements: &[Statement],
    headings: &[Schema],
    sources: &[Joined],
) -> Result<Items<Input>, AllocError>
    ensures { IfOk result (λ is. is ≡ inputs_spec.inputs_of (⟦<OpSet as Tells>⟧.tells ops.now) (before_of statements.now headings.now) sources.now) }
{
    reading::inputs_of(alloc, ops, statements, headings, sources)
}

/// A SELECT from inside. `statements` and `headings` are what stands before its statement. An error is want of memory.
pub fn view_of(
    alloc: Global,
    ops: &OpSet,
    statements: &[Statement],
    headings: &[Schema],
    select: &Select,
) -> Result<View, AllocError>
    ensures { IfOk result (λ view. view ≡ views_spec.view_of (⟦<OpSet as Tells>⟧.tells ops.now) (before_of statements.now headings.now) select.now) }
{
    views::view_of(alloc, ops, statements, headings, select)
}
