// The use of an operator: its name and what it is handed.
use scope_value::Cell;
use sqlite_items::Items;

/// A user operator as a script names it, with its arguments: strings as their bytes, numbers as their digits as written,
/// with `-` before them where one stands.
#[derive(Drop)]
pub struct Call {
    pub op: Cell,
    pub args: Items<Cell>,
}
