//! What holds of lists whatever they are of: permutations, nested loops, elements and where they come from, each row once,
//! the first elements of an order.
//!
//! Lemmas alone, each stated once, for all crates above.
#![tactic(auto)]
