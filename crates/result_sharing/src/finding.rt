// Which statement an input is the result of. Names are compared one by one: a script has at most 64 statements.
ghost use Rattle.std.specs.Prelude.{◌≡◌, Some, None};
ghost use Rattle.std.specs.Option.{option_copied};
ghost use Rattle.placed_trees.specs.Inputs as spec;

use placed_trees::{Command, Statement};
use scope_value::Cell;

fn is_named(name: &Cell, statement: &Statement) -> bool
    ensures { result ≡ spec.is_named name.now statement.now }
{
    match &statement.name {
        Some(own) => own.as_slice() == name.as_slice(),
        None => false,
    }
}

/// Whether a command has a result.
pub(crate) fn gives(command: &Command) -> bool
    ensures { result ≡ spec.gives command.now }
{
    !matches!(command, Command::Output(_))
}

// The number of the first statement of that name.
fn number_of(earlier: &[Statement], name: &Cell) -> Option<usize>
    ensures { result ≡ spec.input_at earlier.now (Some name.now) }
{
    earlier.iter().position(|s| is_named(name, s))
}

// The number of the last statement, where it has a result.
fn number_before(earlier: &[Statement]) -> Option<usize>
    ensures { result ≡ spec.input_at earlier.now None }
{
    let last = earlier.last()?;
    if gives(&last.command) {
        Some(earlier.len() - 1)
    } else {
        None
    }
}

/// The number of the statement that an input is the result of: the first of that name, and without a name the statement just before,
/// unless that is an OUTPUT.
pub fn input_at(earlier: &[Statement], name: Option<&Cell>) -> Option<usize>
    ensures { result ≡ spec.input_at earlier.now (option_copied name.entry) }
{
    match name {
        Some(name) => number_of(earlier, name),
        None => number_before(earlier),
    }
}
