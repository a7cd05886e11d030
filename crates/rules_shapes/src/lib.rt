//! The trees of groups beside the expressions that they stand for.
//!
//! The trees of groups know nodes of the script by number, and joins by the leaves below them. Each expression that steps reach
//! has such a tree, which the rules of these trees reach.
#![tactic(auto)]

mod laws;

pub use laws::{example_law, meaning_law, shapes_law, ties_law};
