// The same over a set of operators: what the crate's callers use.
ghost use Rattle.std.specs.Prelude.{◌≡◌, IfOk};
ghost use Rattle.names_in_sight.specs.Inputs.{before_of};
ghost use Rattle.name_resolution.specs.Resolved as resolved_spec;

use crate::resolving;
use scope_value::Schema;
use script_trees::{Command, Statement};
use std::alloc::{AllocError, Global};
use user_ops::{OpSet, Tells};

/// The statement with its names resolved. What a name doesn't stand for is the first of its kind: whether each is there is asked apart.
/// `statements` and `headings` are what stands before the statement: its statements, and the columns of the result of each. An error is
/// want of memory.
pub fn resolved_statement(
    alloc: Global,
    ops: &OpSet,
    statements: &[Statement],
    headings: &[Schema],
    statement: &Statement,
) -> Result<placed_trees::Statement, AllocError>
    ensures { IfOk result (λ s. s ≡ resolved_spec.resolved_statement (⟦<OpSet as Tells>⟧.tells ops.now) (before_of statements.now headings.now) statement.now) }
{
    resolving::resolved_statement(alloc, ops, statements, headings, statement)
}

/// The columns of a command's result; none of an OUTPUT. An error is want of memory.
pub fn heading_of(
    alloc: Global,
    ops: &OpSet,
    statements: &[Statement],
    headings: &[Schema],
    command: &Command,
) -> Result<Schema, AllocError>
    ensures { IfOk result (λ columns. columns ≡ resolved_spec.heading_of (⟦<OpSet as Tells>⟧.tells ops.now) (before_of statements.now headings.now) command.now) }
{
    resolving::heading_of(alloc, ops, statements, headings, command)
}
