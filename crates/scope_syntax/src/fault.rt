// Why a script is refused.
use thiserror::Error;

/// The first statement that the grammar doesn't have. Statements that aren't empty are counted from 1.
#[derive(Clone, Copy, Debug, PartialEq, Eq, Error)]
#[error("statement {statement} is outside the grammar")]
pub struct SyntaxFault {
    pub statement: u32,
}
