//! Operators that a caller hands in, and the set that owns them under their names.
//!
//! An operator is an object behind `dyn` of one of four traits: an [`Extractor`], a [`Processor`], a [`Reducer`] or a
//! [`Combiner`]. Each object tells, in one ghost record, which schemas and args it takes and what it means. Contracts
//! above speak of these records alone, through what an [`OpSet`] [`Tells`], and never of an object.
#![tactic(auto)]

mod add_fault;
mod combiner;
mod extractor;
mod laws;
mod named_list;
mod op_set;
mod processor;
mod reducer;

pub use add_fault::AddFault;
pub use combiner::Combiner;
pub use extractor::Extractor;
pub use laws::{lawful_law, width_law};
pub use op_set::{OpSet, Tells};
pub use processor::Processor;
pub use reducer::Reducer;
