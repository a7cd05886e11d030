// One aggregate of a SELECT.
use crate::agg::AggKind;
use crate::raw::RawExpr;

/// An aggregate as it is written. Only `COUNT(*)` has no argument.
#[derive(Drop)]
pub struct RawAgg {
    pub kind: AggKind,
    pub arg: Option<RawExpr>,
}
