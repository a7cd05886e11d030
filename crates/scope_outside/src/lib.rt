//! Where scripts, rows and results come from and go to: the store of named byte strings, and three stores.
//!
//! A contract of a layer above speaks of what the store that was handed in tells, before the call and after it.
#![tactic(auto)]

mod answer;
mod file_map;
mod file_store;
mod latest;
mod mem_store;
mod no_fail_store;
mod store;
mod trouble;
mod whole_file;

pub use answer::{ReadAnswer, WriteAnswer};
pub use file_store::FileStore;
pub use mem_store::MemStore;
pub use no_fail_store::NoFailStore;
pub use store::Store;
