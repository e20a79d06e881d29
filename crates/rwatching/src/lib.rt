//! [`Watching`]: a machine that reports each of its steps to watchers.
#![tactic(auto)]

mod watching;

pub use watching::Watching;
