// Which arguments aggregates take, and the type of their values.
ghost use Rattle.std.specs.Prelude.{◌≡◌};
ghost use Rattle.scope_expr.specs.Aggs as spec;

use crate::expr::Expr;
use crate::kinds::{kind_of, takes_number, takes_truth};
use scope_value::ColType;
use script_trees::AggKind;

/// Whether an aggregate takes the argument: a sum a number, a count of the rows where something is true a truth value,
/// and the others whatever there is.
pub fn agg_takes(agg: AggKind, arg: &Expr) -> bool
    ensures { result ≡ spec.takes_argument agg arg.now }
{
    match agg {
        AggKind::Count | AggKind::Min | AggKind::Max => true,
        AggKind::CountIf => takes_truth(arg),
        AggKind::Sum => takes_number(arg),
    }
}

/// The type of an aggregate's value: `long` of counts and sums, the argument's of the least and the greatest.
pub fn agg_kind(agg: AggKind, arg: &Expr) -> ColType
    ensures { result ≡ spec.kind_of_agg agg arg.now }
{
    match agg {
        AggKind::Count | AggKind::CountIf | AggKind::Sum => ColType::Long,
        AggKind::Min | AggKind::Max => kind_of(arg),
    }
}
