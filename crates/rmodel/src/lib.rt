//! The settling rules as definitions, the trait of every machine that follows them, and the laws.
//!
//! The lock state is one list of claims ([`Claimed`]). An event changes the list, and then it is settled once: this is
//! what a step of a [`Machine`] does. The module [`laws`] says what holds after every list of accepted events.
#![tactic(auto)]

mod admission;
mod claimed;
mod granted;
pub mod laws;
mod machine;
mod refused;

pub use admission::admit;
pub use claimed::{Claimed, conflicts_on, is_nested, is_read_half, is_upgrade, share_place};
pub use granted::Granted;
pub use machine::Machine;
pub use refused::Refused;
pub use rexpand::Groups;
