//! Logical expressions over bags of rows, and what each of them means.
//!
//! An expression is a tree of operators over scans of streams and over results that several consumers share. What it
//! means is said of bags alone: which bags stand for it (`specs/Meaning.antt`). Nothing here knows of partitions, hashing
//! or the order in which rows come, so that rewritings, kernels and plans can all be held against it.
#![tactic(auto)]

mod agg;
mod args;
mod blocks;
mod columns;
mod laws;
mod logic_op;
mod logical;
mod nodes;

pub use agg::Agg;
pub use args::{CallArgs, GroupArgs, TopArgs};
pub use blocks::{Equality, block_equalities, block_leaf};
pub use columns::{columns_of, group_columns};
pub use laws::{bag_law, block_law, number_law, replacement_law, rows_law, split_law};
pub use logic_op::LogicOp;
pub use logical::Logical;
pub use nodes::child_number;
