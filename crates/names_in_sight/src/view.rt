// A SELECT from inside.
use crate::input::Input;
use placed_trees::Grouping;
use scope_expr::{Expr, Scope};
use scope_value::Cell;
use sqlite_items::Items;

/// A SELECT from inside: its inputs; the columns that WHERE, GROUP BY and the arguments of aggregates see; its grouping; the columns that
/// its items see; the items, with their names; and the columns that HAVING and ORDER BY see.
#[derive(Drop)]
pub struct View {
    pub inputs: Items<Input>,
    pub names: Scope,
    pub grouping: Option<Grouping>,
    pub inner: Scope,
    pub outputs: Items<(Cell, Expr)>,
    pub result: Scope,
}
