//! A script's expressions: its Dag, the places of expressions in it, and what is known of their rows.
//!
//! The expressions and what they mean stand in `logical_trees`, and are handed on here.
#![tactic(auto)]

mod block_facts;
mod block_pairs;
mod bounds;
mod carried;
mod dag;
mod dag_facts;
mod finding;
mod known;
mod known_at;
mod known_nodes;
mod laws;
mod naming;
mod place;
mod stated;

pub use dag::{Dag, DagParts, Output, ScanDecl, Stored};
pub use dag_facts::DagFacts;
pub use finding::{node_at, tree_at};
pub use known::{facts_law, facts_of};
pub use known_at::facts_at;
pub use laws::meaning_law;
pub use logical_trees::{
    Agg, CallArgs, Equality, GroupArgs, LogicOp, Logical, TopArgs, bag_law, block_equalities,
    block_law, block_leaf, child_number, columns_of, group_columns, number_law, replacement_law,
    rows_law, split_law,
};
pub use place::{Place, PlacePart};
