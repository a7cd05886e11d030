//! Rows in batches: a list of rows, all equally long, in one byte vector, for the kernels and exchanges.
//!
//! A contract sees a [`Batch`] as its width and its list of rows, whatever lies in memory.
#![tactic(auto)]

mod batch;
mod batch_list;
mod packed;
mod row_ref;

pub use batch::Batch;
pub use batch_list::BatchList;
pub use row_ref::RowRef;
