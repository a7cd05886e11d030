// A statement with its names resolved.
ghost use Rattle.std.specs.Prelude.{◌≡◌, IfOk};
ghost use Rattle.name_resolution.specs.Resolved as spec;
ghost use Rattle.names_in_sight.specs.Inputs.{before_of};
ghost use Rattle.names_in_sight.specs.Views as views_spec;

use crate::combining::combine_of;
use crate::commands::{extract_of, output_of, process_of, select_of};
use crate::reducing::reduce_of;
use names_in_sight::View;
use names_in_sight::carrying::beside;
use names_in_sight::copies::{copied_columns, copied_name};
use names_in_sight::finding::Finds;
use names_in_sight::seen::heading;
use names_in_sight::views::view_of;
use placed_trees::Command;
use scope_expr::Expr;
use scope_value::{Cell, Schema};
use script_trees::{Command as RawCommand, Select, Statement};
use sqlite_items::Items;
use std::alloc::{AllocError, Global};

// The command with its names resolved.
fn resolved<O: Finds>(
    alloc: Global,
    ops: &O,
    statements: &[Statement],
    headings: &[Schema],
    command: &RawCommand,
) -> Result<Command, AllocError>
    ensures { IfOk result (λ c. c ≡ spec.resolved (O.tells ops.now) (before_of statements.now headings.now) command.now) }
{
    match command {
        RawCommand::Extract {
            cols,
            stream,
            call,
            stored,
        } => extract_of(alloc, ops, cols.as_slice(), stream, call, stored),
        RawCommand::Select(select) => select_of(alloc, ops, statements, headings, select),
        RawCommand::Process { source, call, cols } => {
            process_of(alloc, ops, source, call, cols.as_slice())
        }
        RawCommand::Reduce {
            source,
            presort,
            on,
            call,
            cols,
        } => {
            let (on, cols) = (on.as_slice(), cols.as_slice());
            reduce_of(
                alloc, ops, statements, headings, source, presort, on, call, cols,
            )
        }
        RawCommand::Combine {
            left,
            left_presort,
            right,
            right_presort,
            on,
            call,
            cols,
        } => combine_of(
            alloc,
            ops,
            statements,
            headings,
            left,
            left_presort,
            right,
            right_presort,
            on.as_slice(),
            call,
            cols.as_slice(),
        ),
        RawCommand::Output {
            source,
            stream,
            outputter,
            stored,
        } => output_of(
            alloc, statements, headings, source, stream, outputter, stored,
        ),
    }
}

/// The statement with its names resolved. An error is want of memory.
pub(crate) fn resolved_statement<O: Finds>(
    alloc: Global,
    ops: &O,
    statements: &[Statement],
    headings: &[Schema],
    statement: &Statement,
) -> Result<placed_trees::Statement, AllocError>
    ensures { IfOk result (λ s. s ≡ spec.resolved_statement (O.tells ops.now) (before_of statements.now headings.now) statement.now) }
{
    let name = copied_name(&statement.name)?;
    let resolved = resolved(alloc, ops, statements, headings, &statement.command);
    let (name, command) = beside(name, resolved)?;
    Ok(placed_trees::Statement { name, command })
}

fn outputs_in(view: View) -> Items<(Cell, Expr)>
    ensures { result ≡ view.outputs }
{
    let View { outputs, .. } = view;
    outputs
}

fn select_heading<O: Finds>(
    alloc: Global,
    ops: &O,
    statements: &[Statement],
    headings: &[Schema],
    select: &Select,
) -> Result<Schema, AllocError>
    ensures { IfOk result (λ cs. cs ≡ views_spec.heading (views_spec.view_of (O.tells ops.now) (before_of statements.now headings.now) select.now).outputs) }
{
    let view = view_of(alloc, ops, statements, headings, select)?;
    let outputs = outputs_in(view);
    heading(alloc, outputs.as_slice())
}

/// The columns of a command's result; none of an OUTPUT. An error is want of memory.
pub(crate) fn heading_of<O: Finds>(
    alloc: Global,
    ops: &O,
    statements: &[Statement],
    headings: &[Schema],
    command: &RawCommand,
) -> Result<Schema, AllocError>
    ensures { IfOk result (λ cs. cs ≡ spec.heading_of (O.tells ops.now) (before_of statements.now headings.now) command.now) }
{
    match command {
        RawCommand::Select(select) => select_heading(alloc, ops, statements, headings, select),
        RawCommand::Extract { cols, .. }
        | RawCommand::Process { cols, .. }
        | RawCommand::Reduce { cols, .. }
        | RawCommand::Combine { cols, .. } => copied_columns(alloc, cols.as_slice()),
        RawCommand::Output { .. } => Ok(Schema::new(alloc)),
    }
}
