//! The names in a script, resolved statement by statement: columns by place, operators by their place in the set.
#![tactic(auto)]

mod combining;
mod commands;
mod from;
mod joins;
mod outer;
mod over_ops;
mod parts;
mod queries;
mod reducing;
mod resolving;
mod sources;

pub use over_ops::{heading_of, resolved_statement};
