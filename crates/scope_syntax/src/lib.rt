//! The grammar of scripts: from tokens to statements.
//!
//! `specs/Statements.antt` says which terminals spell which statement and which script, production by production, on
//! what `expression_syntax` says of their parts.
#![tactic(auto)]

mod commands;
mod fault;
pub mod laws;
mod parsing;
mod pieces;
mod selecting;
mod statement;
mod stored;

pub use fault::SyntaxFault;
pub use parsing::parse;
pub use script_trees::{
    Call, Command, Item, Items, JoinSide, Joined, Origin, RawAgg, RawKey, RawStored, RefPair,
    Script, Select, Source, Statement,
};
