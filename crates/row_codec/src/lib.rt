//! Streams as text: a part's records read as rows, and rows written as records.
//!
//! A record is what `csv` reads without a header row: fields between delimiters, quotes around a field that holds a delimiter, a quote or a
//! line end. Its row is what an extractor reads from its fields. A field can be read by a column's type, and each value has one written form.
#![tactic(auto)]

mod examples;
mod fault;
mod field;
mod number;
mod part;
pub mod records;
mod writing;

pub use examples::examples_law;
pub use fault::RowFault;
pub use field::{read_field, write_field};
pub use number::number_under;
pub use part::read_part;
pub use writing::write_rows;
