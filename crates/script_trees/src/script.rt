// A whole script.
use crate::command::Command;
use scope_value::Cell;
use sqlite_items::Items;

/// A command, and the name that it is given.
#[derive(Drop)]
pub struct Statement {
    pub name: Option<Cell>,
    pub command: Command,
}

/// The statements of a script that aren't empty, in order.
#[derive(Drop)]
pub struct Script {
    pub statements: Items<Statement>,
}
