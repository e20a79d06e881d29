//! Tests of the program's texts that are not tables: limits, faults of the devices, and the words of an environment.
//!
//! Each test has one assertion: the work is done by functions that answer whether it went as it should.
#![tactic(auto)]

#[cfg(test)]
mod bounds;
#[cfg(test)]
mod devices;
#[cfg(test)]
mod endless;
#[cfg(test)]
mod expected;
#[cfg(test)]
mod limits;
#[cfg(test)]
mod reports;
#[cfg(test)]
mod runs;
#[cfg(test)]
mod scripts;
#[cfg(test)]
mod streams;
#[cfg(test)]
mod words;
