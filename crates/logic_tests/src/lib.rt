//! Tests that stand on several crates of the logical layer.
#![tactic(auto)]

#[cfg(test)]
mod blocks;
#[cfg(test)]
mod facts;
#[cfg(test)]
mod making;
#[cfg(test)]
mod meaning;
#[cfg(test)]
mod nodes;
#[cfg(test)]
mod operators;
#[cfg(test)]
mod scripts;
#[cfg(test)]
mod sinking;
#[cfg(test)]
mod tall;
#[cfg(test)]
mod texts;
#[cfg(test)]
mod trees;
