//! The tree of a statement's result where it stands: a result that is shared is referred to, and any other stands in its consumer.
//!
//! What it is stands in `script_meaning`, where the part of a statement is a tree that is a function of where it will stand.
#![tactic(auto)]

mod leaves;
mod trees;

pub use trees::result_tree;
