// What an OUTPUT writes, and in which order.
ghost use Rattle.std.specs.Prelude.{◌≡◌, ◌<◌, ℕ, length, get_or, take, All, IfOk, Some, slice_get, option_map};
ghost use Rattle.col_sets.specs.Keys.{IsBelow};
ghost use Rattle.placed_trees.specs.declared.command.Command.TheVariants as command;
ghost use Rattle.script_meaning.specs.Bound.{parts_of};
ghost use Rattle.script_meaning.specs.Dag.{part_at};
ghost use Rattle.script_meaning.specs.Part.{cols_at, order_at};
ghost use Rattle.script_meaning.specs.Placed.{IsPresortBelow};
ghost use Rattle.script_meaning.specs.Within.{IsOrderFew};
ghost use Rattle.result_trees.specs.Results.{IsStanding};
ghost use Rattle.script_binder.specs.Steps.{order_in_command, order_of_result, order_written, HasOutput, IsOutputOf};

use col_sets::{ColId, KeyOrders};
use logical_dag::{Logical, Output};
use names_in_sight::carrying::beside;
use placed_trees::{Command, Statement, Written};
use result_sharing::input_at;
use script_nodes::{Made, order_in, stored_in};
use source_laws::laws::stands_law;
use std::alloc::AllocError;

// The ORDER BY of a command, in these columns; only a SELECT has one.
fn order_of_command(cols: &[ColId], command: &Command) -> Option<KeyOrders>
    requires few { IsOrderFew (order_in_command command.now) }
    requires there { IsPresortBelow (length cols.now) (order_in_command command.now) }
    requires columns { All IsBelow cols.now }
    ensures { result ≡ order_at (λ p. get_or cols.now p 128) (order_in_command command.now) }
{
    match command {
        Command::Select(query) => order_in(cols, &query.order),
        _ => None,
    }
}

// That of the statement of that number, where it is there.
fn order_of_number(cols: &[ColId], script: &[Statement], number: Option<usize>) -> Option<KeyOrders>
    requires few { IsOrderFew (order_of_result script.now number) }
    requires there { IsPresortBelow (length cols.now) (order_of_result script.now number) }
    requires columns { All IsBelow cols.now }
    ensures { result ≡ order_at (λ p. get_or cols.now p 128) (order_of_result script.now number) }
{
    match number {
        Some(number) => match script.get(number) {
            Some(statement) => order_of_command(cols, &statement.command),
            None => None,
        },
        None => None,
    }
}

// The order of what is written: none where it is stored, else that of the statement whose result it is.
fn order_of(cols: &[ColId], script: &[Statement], at: usize, written: &Written) -> Option<KeyOrders>
    requires within { at < length script.now }
    requires few { IsOrderFew (order_written script.now at written.now) }
    requires there { IsPresortBelow (length cols.now) (order_written script.now at written.now) }
    requires columns { All IsBelow cols.now }
    ensures { result ≡ order_at (λ p. get_or cols.now p 128) (order_written script.now at written.now) }
{
    match &written.stored {
        Some(_) => None,
        None => order_of_number(
            cols,
            script,
            input_at(&script[..at], written.source.as_ref()),
        ),
    }
}

// What the OUTPUT at that place writes.
fn written_at(script: &[Statement], at: usize) -> &Written
    requires { HasOutput script.now at }
    ensures { option_map (λ s. s.command) (slice_get script.now at) ≡ Some (command.Output result.now) }
{
    match &script[at].command {
        Command::Output(written) => written,
        _ => unreachable!(),
    }
}

/// The tree alone.
pub(crate) fn tree_in(made: Made) -> Logical
    ensures { result ≡ made.tree }
{
    let Made { tree, cols, .. } = made;
    drop(cols);
    tree
}

/// The output of that statement, whose tree was made with columns from 0 on. An error is want of memory, and lets go of the tree.
pub(crate) fn output_of(script: &[Statement], at: usize, made: Made) -> Result<Output, AllocError>
    requires standing { IsStanding script.now }
    requires output { HasOutput script.now at }
    requires cols { made.cols.items ≡ cols_at (part_at (parts_of script.now) at) 0 }
    ensures { IfOk result (IsOutputOf script.now at made) }
{
    stands_law();
    let written = written_at(script, at);
    let order = order_of(made.cols.as_slice(), script, at, written);
    let stored = stored_in(made.cols.as_slice(), &written.stored);
    let (tree, name) = beside(tree_in(made), written.stream.copy())?;
    Ok(Output {
        name,
        delimiter: written.delimiter,
        order,
        stored,
        tree,
    })
}
