//! The plain program of what expressions mean.
//!
//! [`plain_bag`] computes a bag that stands for an expression, each kind by going through the whole lists below it. It is
//! slow, and short enough to read beside the definition in `logical_trees`.
#![tactic(auto)]

mod aggregate;
mod calls;
mod columns;
mod compare;
mod exact_sum;
mod grouping;
mod joins;
mod kernels;
mod keyed;
mod orders;
mod plain;

pub use orders::rows_in_order;
pub use plain::plain_bag;
