//! What holds of a script that binds: what its statements name is there, and it is within the limits of the language.
//!
//! Each law is the contract of a function with nothing to do.
#![tactic(auto)]

pub mod laws;
