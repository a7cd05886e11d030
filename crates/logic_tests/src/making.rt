// Parts of expressions.
ghost use Rattle.std.specs.Prelude.{◌≡◌, IfOk};
ghost use Rattle.logical_trees.specs.Tree.{leaf, one, two, tree_of};
ghost use Rattle.logical_trees.specs.Worked as worked;

use arrayvec::ArrayVec;
use col_sets::{ColId, ColSet};
use logical_dag::{LogicOp, Logical};
use scope_expr::{Expr, PairOp};
use scope_value::{ColType, Value};
use sqlite_items::Boxed;
use std::alloc::{AllocError, Global};

/// The set of the columns.
pub fn set_of(cols: &[ColId]) -> ColSet {
    ColSet::of(cols)
}

/// A set of columns as the tables write it: its members parted by dots, and `-` for none.
pub fn columns_in(text: &str) -> ColSet {
    let mut set = ColSet::empty();
    for word in text.split('.') {
        set = set.with(word.parse::<ColId>().unwrap_or(ColId::MAX));
    }
    set
}

/// The scan of that number.
pub fn scan(alloc: Global, number: u32, cols: ColSet) -> Logical
    ensures { tree_of result ≡ leaf (LogicOp.Scan number cols) }
{
    Logical::leaf(alloc, LogicOp::Scan { scan: number, cols })
}

/// An operator over one child.
pub fn over(alloc: Global, op: LogicOp, kid: Logical) -> Result<Logical, AllocError>
    ensures { IfOk result (λ t. tree_of t ≡ one op (tree_of kid)) }
{
    Logical::one(alloc, op, kid)
}

/// The same over two, the right one being the scan of that number.
pub fn beside_scan(
    alloc: Global,
    op: LogicOp,
    left: Logical,
    number: u32,
    cols: ColSet,
) -> Result<Logical, AllocError>
    ensures { IfOk result (λ t. tree_of t ≡ two op (tree_of left) (leaf (LogicOp.Scan number cols))) }
{
    Logical::two(alloc, op, left, scan(alloc, number, cols))
}

/// The pairs of rows that agree in the columns `a` on the left and `b` on the right.
pub fn on_pair(a: ColId, b: ColId) -> LogicOp
    ensures { result ≡ worked.on_pair a b }
{
    let mut on = ArrayVec::new();
    on.push((a, b));
    LogicOp::Join { on }
}

/// A column of numbers.
pub fn column(c: ColId) -> Expr
    ensures { result ≡ Expr.Col c ColType.Long }
{
    Expr::Col(c, ColType::Long)
}

/// A number.
pub fn number(n: i64) -> Expr
    ensures { result ≡ Expr.Literal (Value.Int n) }
{
    Expr::Literal(Value::Int(n))
}

/// An operator between two expressions.
pub fn pair(alloc: Global, op: PairOp, a: Expr, b: Expr) -> Result<Expr, AllocError>
    ensures { IfOk result (λ e. e ≡ Expr.Pair op a b) }
{
    Ok(Expr::Pair(op, Boxed::new(alloc, a)?, Boxed::new(alloc, b)?))
}
