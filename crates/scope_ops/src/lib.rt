//! The operators of the program: those of scope_shipped, and the combiners of outer joins.
#![tactic(auto)]

mod operators;

pub use operators::{Uses, with_operators};
