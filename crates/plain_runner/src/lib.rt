//! The plain program of a whole Dag: what it gives its outputs, tree by tree, in one partition.
#![tactic(auto)]

mod outputs;
mod shared;
mod tree;

pub use outputs::plain_rows;
