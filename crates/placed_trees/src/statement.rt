// A statement of a script.
use crate::command::Command;
use scope_value::Cell;

/// A command, and the name of its result, if it has one.
#[derive(Drop)]
pub struct Statement {
    pub name: Option<Cell>,
    pub command: Command,
}
