//! Types of the rows of a plan's nodes.
//!
//! Each column of a tree has one type (`specs/Types.antt`). Where the values of the rows of a node's children fit, so do those of its
//! own, node by node, and those of a user operator by its law.
#![tactic(auto)]

mod laws;

pub use laws::{called_law, fit_law};
