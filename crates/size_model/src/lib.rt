//! Declared sizes: the file that declares how many rows and parts streams have, and how many distinct values their
//! columns.
//!
//! [`read_sizes`] reads the file, and [`Sizes`] answers what it declares, or a default. `specs/Declarations.antt` says
//! what the records declare, and `specs/Answers.antt` what is answered.
#![tactic(auto)]

mod declaration;
mod fault;
pub mod laws;
mod reading;
mod sizes;

pub use fault::SizesFault;
pub use reading::read_sizes;
pub use sizes::Sizes;
