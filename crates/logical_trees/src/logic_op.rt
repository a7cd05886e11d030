// The operators of expressions.
use crate::args::{CallArgs, GroupArgs, TopArgs};
use arrayvec::ArrayVec;
use col_sets::{ColId, ColSet, KeyCols, KeyOrders};
use scope_expr::Expr;
use sqlite_items::Items;

/// What a node of an expression does with the bags of its children. `cols` are the columns that it numbers afresh. A pair
/// of columns that are set equal has the left child's column first. Binding gives all kinds but the last four, which
/// stand for the two steps of a Group and of a Top.
#[derive(Drop)]
pub enum LogicOp {
    /// The rows of a stream.
    Scan {
        scan: u32,
        cols: ColSet,
    },
    /// The rows of a shared result.
    Ref {
        shared: u32,
        cols: ColSet,
    },
    /// The rows of which the predicate holds.
    Filter(Expr),
    /// The values of the items on each row.
    Project {
        items: Items<Expr>,
        cols: ColSet,
    },
    /// The pairs of rows that agree on all these columns.
    Join {
        on: ArrayVec<(ColId, ColId), 4>,
    },
    /// One row for each key.
    Group(GroupArgs),
    /// A user operator, row by row.
    Process(CallArgs),
    /// A user operator, group by group.
    Reduce {
        call: CallArgs,
        on: KeyCols,
        presort: Option<KeyOrders>,
    },
    /// A user operator, group beside group.
    Combine {
        call: CallArgs,
        on: ArrayVec<(ColId, ColId), 4>,
        left: Option<KeyOrders>,
        right: Option<KeyOrders>,
    },
    /// The first rows of an order.
    Top(TopArgs),
    /// The first step of a Group: partial rows of some of the rows.
    Partial(GroupArgs),
    /// The second step of a Group: one row of the partial rows of each key.
    Finish(GroupArgs),
    /// The first step of a Top: some rows, among them the first.
    LocalTop(TopArgs),
    /// The second step of a Top.
    LastTop(TopArgs),
}
