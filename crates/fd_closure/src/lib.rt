//! What is known of the rows of a bag, and which columns a set of columns determines.
//!
//! `closure` answers the least set that has the given columns and the constants and is closed under the dependencies
//! and the equal columns, as the textbook's closure of attributes (Armstrong, 1974). No call here is handed an allocator.
#![tactic(auto)]

mod closures;
mod facts;

pub use closures::{closure, closure_law, hold_law};
pub use facts::Facts;

#[cfg(test)]
mod tests;
