//! The streams of a script in a store: the parts of its scans, read in turn, and the texts of its outputs, written in turn.
#![tactic(auto)]

mod files;
mod outputs;
mod parts;
mod scans;
mod stops;

pub use files::read_file;
pub use outputs::{output_texts, write_texts};
pub use scans::read_scans;
pub use stops::{ReadStop, WriteStop};
