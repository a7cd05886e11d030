//! The statements of a script once its names are resolved: columns by place, operators by their place in the set. Results keep
//! their names.
//!
//! What resolves names makes them; what binds a script to a Dag, and what says what a script means, read them.
#![tactic(auto)]

mod call;
mod command;
mod query;
mod source;
mod statement;

pub use call::Call;
pub use command::{Command, Written};
pub use query::{Beside, Grouping, Joined, Query};
pub use source::{Source, StoredPlaces, Stream};
pub use statement::Statement;
