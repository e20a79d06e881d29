//! Tests of the gate of `rlock` and of the locked state of `rstate`, through public functions only. The crate has
//! nothing else.
#![tactic(auto)]

#[cfg(test)]
mod shelves;
#[cfg(test)]
mod signing;
#[cfg(test)]
mod states;
