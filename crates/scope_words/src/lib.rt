//! The words of the command line `scope run SCRIPT [--sizes FILE]`: one reading, or none.
#![tactic(auto)]

mod found;
mod reading;

pub use reading::{Reading, known_lines, read};
