// What stands before a statement.
use scope_value::Schema;
use script_trees::Statement;

/// What stands before a statement: the statements, the columns of the result of each, and how many columns the tree of each numbers,
/// all three equally long; and the mentions of results in the whole script, by the numbers of their statements.
#[derive(Clone, Copy)]
pub(crate) struct Earlier<'a> {
    pub statements: &'a [Statement],
    pub headings: &'a [Schema],
    pub counts: &'a [usize],
    pub all: &'a [usize],
}
