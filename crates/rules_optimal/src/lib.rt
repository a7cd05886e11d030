//! No plan of the rule space costs less than the bounds of its groups say.
//!
//! The plans are those of the script's operators, over every expression that steps reach; the groups list all that the rules give,
//! each at its place. Each law is the contract of a function with nothing to do.
#![tactic(auto)]

mod laws;

pub use laws::{example_law, optimal_law};
