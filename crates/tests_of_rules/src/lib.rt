//! Tests of the crates that hold the rules: what no clause says.
//!
//! That calls which take memory succeed with ample memory, what is printed, what a device of the standard library makes
//! of its calls, and each generic call at a type of its own. A test has one assertion: the function that it asserts
//! answers whether all was as it should be.
#![tactic(auto)]

#[cfg(test)]
mod bounds;
#[cfg(test)]
mod claims;
#[cfg(test)]
mod covers;
#[cfg(test)]
mod drills;
#[cfg(test)]
mod ends;
#[cfg(test)]
mod errors;
#[cfg(test)]
mod groups;
#[cfg(test)]
mod machines;
#[cfg(test)]
mod sets;
#[cfg(test)]
mod stories;
#[cfg(test)]
mod values;
