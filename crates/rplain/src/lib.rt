//! [`Plain`]: a machine over a plain list of claims, whose step is exactly one event of the protocol.
//!
//! The lock state is kept as it is defined, as one list. After an event it is settled in time that is at most quadratic in
//! the number of claims. Few claims are looked at: the other modules find what stays as it is, what becomes entitled or
//! satisfied, and which asks are granted, and are proved to agree with the rules.
#![tactic(auto)]

mod claims;
mod give;
mod left;
mod list;
mod new_claim;
mod plain;
mod removals;
mod seen;
mod settled;
mod sweep;
mod tell;
mod way;

pub use plain::Plain;
