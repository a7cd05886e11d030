//! What the part of a statement takes from the parts of its sources.
//!
//! Each law is the contract of a function with nothing to do.
#![tactic(auto)]

pub mod laws;
