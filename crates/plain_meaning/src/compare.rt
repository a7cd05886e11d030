// The order of values that stand in columns.
ghost use Rattle.std.specs.Prelude.{◌≡◌};
ghost use Rattle.scope_value.specs.Order.{value_cmp};
ghost use Rattle.structural_props.specs.Rows.{value_at};

use col_sets::{ColId, ColSet};
use scope_value::{Row, Value};
use std::cmp::Ordering;

/// The order of the values of two rows, each over columns of its own and in one of these. Where a row ends before its
/// column, null stands there.
pub(crate) fn compare_in(
    left: ColSet,
    r: &Row,
    c: ColId,
    right: ColSet,
    s: &Row,
    d: ColId,
) -> Ordering
    ensures { result ≡ value_cmp (value_at left r.now c) (value_at right s.now d) }
{
    let mine = r.get(left.rank(c) as usize);
    let other = s.get(right.rank(d) as usize);
    match (mine, other) {
        (Some(x), Some(y)) => x.compare(y),
        (Some(x), None) => x.compare(&Value::Null),
        (None, Some(y)) => Value::Null.compare(y),
        (None, None) => Value::Null.compare(&Value::Null),
    }
}
