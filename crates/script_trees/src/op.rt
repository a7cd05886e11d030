// The operators between two operands.

/// An operator between two operands: of truth values, of comparison, of arithmetic.
#[derive(Clone, Copy, PartialEq, Eq)]
pub enum PairOp {
    Or,
    And,
    Eq,
    Ne,
    Lt,
    Le,
    Gt,
    Ge,
    Add,
    Sub,
    Mul,
    Div,
    Rem,
}
