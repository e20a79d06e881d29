//! The bounds of all waits of what tasks need, looked up in tables that are made once.
//!
//! [`Bounds::of`] makes the tables, which have the longest claims by task and resource. [`Bounds::bound`] answers from them
//! exactly the bound that `rbound` defines.
#![tactic(auto)]

mod answers;
mod bounds;
mod delays;
mod leaders;
mod lengths;
mod other_lengths;
mod rows;
mod sums;
mod table;
mod tables;
mod totals;
mod two;
mod zones;

pub use bounds::Bounds;
