//! What holds of a script that binds, so that its Dag can be made and run.
//!
//! Each law is the contract of a function with nothing to do.
#![tactic(auto)]

pub mod laws;
