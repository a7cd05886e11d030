//! The normal form of expressions: conjuncts of Filters stand as far down as they can.
//!
//! One conjunct sinks into a tree that is in normal form already (`specs/Sinking.antt`), and only Filters move. A Dag and its
//! normal form give the same rows. Each law is the contract of a function with nothing to do.
#![tactic(auto)]

pub mod laws;
