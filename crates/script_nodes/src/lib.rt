//! The nodes that a statement of a script becomes, over the expressions of its sources, with the columns of its rows by place.
//!
//! What they are is `script_meaning`'s: there a tree is a function of where it will stand. Here it stands, and is made.
#![tactic(auto)]

mod columns;
mod declared;
mod handed;
mod keys;
mod leaves;
mod made;
mod nodes;
mod over;
mod over_one;
mod over_two;
mod query;

pub use declared::{declared_scan, stored_in};
pub use keys::order_in;
pub use leaves::{ref_of, scan_of};
pub use made::Made;
pub use over::over_sources;
