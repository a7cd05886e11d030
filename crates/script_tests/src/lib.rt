//! Tests of what reads scripts and records.
#![tactic(auto)]

#[cfg(test)]
mod expressions;
#[cfg(test)]
mod grammar;
#[cfg(test)]
mod one_field;
#[cfg(test)]
mod parsed;
#[cfg(test)]
mod records;
#[cfg(test)]
mod sizes;
#[cfg(test)]
mod streams;
#[cfg(test)]
mod tokens;
#[cfg(test)]
mod trees;
