// Why a set of operators refuses another one.

/// Why an operator was not added. The set is then as before, and the operator comes back.
#[derive(Debug, Clone, Copy, PartialEq, Eq)]
pub enum AddFault {
    /// There was no room for it.
    NoMemory,
    /// The set has an operator of that kind under that name.
    Duplicate,
}
