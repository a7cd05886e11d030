//! The causes for which a script binds to nothing, and a script with its names resolved where there is none.
#![tactic(auto)]

mod asking;
mod calls;
mod cause;
mod counts;
mod earlier;
mod exprs;
mod found;
mod inputs;
mod judging;
mod keys;
mod names;
mod ons;
mod ops;
mod progress;
mod repeats;
mod resolving;
mod seen;
mod streams;

pub use cause::{BindCause, BindFault, LimitKind};
pub use resolving::resolve;
