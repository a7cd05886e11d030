//! The normal form of a script's expressions: the conjuncts of Filters stand as far down as they can.
//!
//! What it is stands in the crate `normal_meaning`, with the laws on what it keeps. Here it is made, of one expression or of a whole
//! Dag: from below, one conjunct after the other sinks into what stands under it. No part of an expression is copied but the items
//! that take the place of columns.
#![tactic(auto)]

mod columns;
mod dag;
mod node;
mod normal;
mod passing;
mod sinking;

pub use dag::normalise;
pub use normal::normal_tree;
