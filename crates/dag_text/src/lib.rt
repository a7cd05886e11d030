//! A script's Dag as text, for whoever learns, debugs or tests the compiler.
//!
//! A line for each scan, then the shared trees and those of the outputs, each behind its own line and with a line for each node, in
//! post-order and numbered from 0. `docs/FORMATS.md` has the page; `specs/Lines.antt` and `specs/Pieces.antt` are the same as
//! definitions.
#![tactic(auto)]

mod dag;
mod expression;
mod list;
mod operator;
mod piece;
mod tree;

pub use dag::write_dag;
pub use tree::write_tree;
