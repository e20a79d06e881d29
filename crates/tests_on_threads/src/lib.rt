//! Tests of guards, on threads, through public functions only. The crate has nothing else.
#![tactic(auto)]

#[cfg(test)]
mod closing;
#[cfg(test)]
mod guards;
#[cfg(test)]
mod looks;
#[cfg(test)]
mod nesting;
#[cfg(test)]
mod published;
#[cfg(test)]
mod rationed;
#[cfg(test)]
mod refusals;
#[cfg(test)]
mod rising;
#[cfg(test)]
mod rounds;
#[cfg(test)]
mod sections;
#[cfg(test)]
mod tasks;
