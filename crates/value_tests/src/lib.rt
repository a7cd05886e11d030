//! Tests of values, columns, batches and stores.
#![tactic(auto)]

#[cfg(test)]
mod batches;
#[cfg(test)]
mod columns;
#[cfg(test)]
mod stores;
#[cfg(test)]
mod values;
