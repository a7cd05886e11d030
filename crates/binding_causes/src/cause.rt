// Why a script binds to nothing.
use thiserror::Error;

/// A limit of the language.
#[derive(Clone, Copy, Debug, PartialEq, Eq)]
pub enum LimitKind {
    /// 64 statements in a script.
    Statements,
    /// 128 columns numbered in one tree.
    Columns,
    /// Five inputs of a FROM.
    Joins,
    /// Four columns of a list of keys, and four equalities of an ON.
    Keys,
    /// Four results that are mentioned at least twice.
    Shared,
    /// Sixteen args of an operator.
    Args,
}

/// Why a statement binds to nothing. Of several causes the first of this list is answered.
#[derive(Clone, Copy, Debug, PartialEq, Eq)]
pub enum BindCause {
    /// A source isn't the name of an earlier result, or an omitted input has no result just before it.
    UnknownName,
    /// A name of a result, of sources, of items, of declared columns or of an output stream stands twice, or a column twice in a list of keys.
    DuplicateName,
    /// There is no operator of that kind and name.
    UnknownOperator,
    /// A name is no column in sight.
    UnknownColumn,
    /// A name is a column of two sources, or `*` stands for two columns of one name.
    AmbiguousColumn,
    /// Types don't go together.
    TypeMismatch,
    /// The operator doesn't take the columns and the args.
    SchemaRefused,
    /// TOP stands without ORDER BY.
    TopWithoutOrder,
    /// More than the language has room for.
    Limit(LimitKind),
}

/// A script binds to nothing: the first statement with a cause, from 1, and its first cause.
#[derive(Clone, Copy, Debug, PartialEq, Eq, Error)]
#[error("statement {statement} binds to nothing")]
pub struct BindFault {
    pub statement: u32,
    pub cause: BindCause,
}
