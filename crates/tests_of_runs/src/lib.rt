//! Tests of runs of scripts on threads, through public functions only. The crate has nothing else.
#![tactic(auto)]

#[cfg(test)]
mod resting;
#[cfg(test)]
mod runs;
#[cfg(test)]
mod sections;
#[cfg(test)]
mod seen;
#[cfg(test)]
mod stopping;
#[cfg(test)]
mod tallies;
#[cfg(test)]
mod tools;
#[cfg(test)]
mod waking;
