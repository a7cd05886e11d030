//! Tests of the operators and of the top call.
#![tactic(auto)]

#[cfg(test)]
mod first_is_null;
#[cfg(test)]
mod marking;
#[cfg(test)]
mod operators;
#[cfg(test)]
mod outer;
#[cfg(test)]
mod shipped;
#[cfg(test)]
mod silent;
#[cfg(test)]
mod top;
#[cfg(test)]
mod words;
