//! Sets of columns, and the lists of columns by which rows are keyed and ordered.
//!
//! A set is seen by contracts as the ascending list of its members, which are below 128. No call here is handed an allocator.
#![tactic(auto)]

mod col_set;
mod column;
mod dir;
mod key_cols;
mod key_orders;

pub use col_set::ColSet;
pub use column::{ColId, MAX_COLUMNS, is_column};
pub use dir::Dir;
pub use key_cols::KeyCols;
pub use key_orders::KeyOrders;
