//! Trees over the numbers of a script's nodes, what the rules reach from them, and groups of such trees.
//!
//! A group lists the expressions that stand for one another, each over further groups (`specs/Memo.antt`), and a place says where
//! an expression stands (`specs/Place.antt`). Each law is the contract of a function with nothing to do.
#![tactic(auto)]

mod kind;
mod laws;

pub use kind::{Form, Kind};
pub use laws::{represented_law, space_law};
