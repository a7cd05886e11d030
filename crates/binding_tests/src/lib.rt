//! Tests of what resolves the names of scripts: which scripts bind, and the first cause of those that don't.
#![tactic(auto)]

#[cfg(test)]
mod causes;
#[cfg(test)]
mod large;
