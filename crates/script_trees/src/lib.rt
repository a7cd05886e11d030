//! The trees of a script as it is written: expressions, what stands in statements, and statements.
//!
//! The parser makes them; what types and binds a script reads them, so that neither waits for the other's proofs.
#![tactic(auto)]

mod agg;
mod call;
mod command;
mod item;
mod key;
mod op;
mod raw;
mod raw_agg;
mod ref_pair;
mod script;
mod select;
mod side;
mod source;
mod stored;

pub use agg::AggKind;
pub use call::Call;
pub use command::Command;
pub use item::{Item, Items};
pub use key::RawKey;
pub use op::PairOp;
pub use raw::{RawExpr, RawRef};
pub use raw_agg::RawAgg;
pub use ref_pair::RefPair;
pub use script::{Script, Statement};
pub use select::{Joined, Select};
pub use side::JoinSide;
pub use source::{Origin, Source};
pub use stored::RawStored;
