//! The Dag of a script: its names are resolved, results that are mentioned twice are shared, and each tree is made where it stands.
#![tactic(auto)]

mod binding;
mod dag;
mod outputs;
mod shared;
mod written;

pub use binding::bind;
pub use dag::dag_of_resolved;
