//! Bounds under listed schemes alone.
//!
//! Some schemes are listed for each shared tree, and bounds hold under choices of these alone. That is enough where the root of a
//! shared tree has no bound below the cost in question under a scheme that is not listed. Each law is the contract of a function with
//! nothing to do.
#![tactic(auto)]

mod laws;

pub use laws::choices_law;
