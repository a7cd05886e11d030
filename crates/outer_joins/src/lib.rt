//! The combiners of outer joins, each with its predicate and its meaning told exactly.
//!
//! [`LeftPairs`], [`RightPairs`] and [`FullPairs`] give pairs of rows, and the rows of the side that each is named for beside nulls
//! where the other side has none at their key.
#![tactic(auto)]

mod full_pairs;
mod laws;
mod left_pairs;
mod right_pairs;
mod rows;
mod side;
mod widths;

pub use full_pairs::FullPairs;
pub use laws::{combiners_law, meaning_law, widths_law};
pub use left_pairs::LeftPairs;
pub use right_pairs::RightPairs;
pub use side::Side;
