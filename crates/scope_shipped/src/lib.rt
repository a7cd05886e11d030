//! The operators that come with the product, each with its predicate and its meaning told exactly.
//!
//! [`LogExtractor`] and [`TextExtractor`] read rows, [`SplitWords`] gives a row for each word, [`TopQueries`] the first
//! rows of a group, and [`MultiSetDifference`] and [`InnerPairs`] combine two groups.
#![tactic(auto)]

mod inner_pairs;
mod laws;
mod log_extractor;
mod multi_set_difference;
mod refusals;
mod row_counts;
mod same_types;
mod split_words;
mod text_extractor;
mod top_queries;

pub use inner_pairs::InnerPairs;
pub use laws::{extractors_law, operators_law};
pub use log_extractor::LogExtractor;
pub use multi_set_difference::MultiSetDifference;
pub use split_words::SplitWords;
pub use text_extractor::TextExtractor;
pub use top_queries::TopQueries;
