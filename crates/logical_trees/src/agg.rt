// One aggregate of a GROUP BY.
use col_sets::ColId;
use scope_expr::{AggKind, Expr};

/// An aggregate over the rows of a group, and the column that it gives. Without an argument it counts the rows.
#[derive(Drop)]
pub struct Agg {
    pub kind: AggKind,
    pub arg: Option<Expr>,
    pub id: ColId,
}
