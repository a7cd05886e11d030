//! What scripts mean statement by statement, and their Dags.
//!
//! The statements are those of `placed_trees`, whose expressions name columns by place; their meaning is in terms of tables that
//! have a width and no column numbers (`specs/Meaning.antt`). A script's Dag shares, drops and numbers (`specs/Dag.antt`), and gives
//! just that meaning. Each law is the contract of a function with nothing to do.
#![tactic(auto)]

pub mod laws;
