//! Values, rows of them and their one order: what every other crate computes with.
//!
//! A contract sees a [`Cell`] as its bytes, a [`Row`] as the list of its values and a [`Schema`] as the list of its columns.
#![tactic(auto)]

mod cell;
mod fitting;
mod keys;
mod laws;
mod row;
mod schema;
mod value;
mod value_ref;

pub use cell::Cell;
pub use fitting::fits;
pub use keys::{KeyItem, KeyList, cmp_rows};
pub use laws::{bag_law, key_order_law, sorted_bag_law, value_order_law};
pub use row::Row;
pub use schema::{ColType, Column, Schema};
pub use value::Value;
pub use value_ref::ValueRef;
