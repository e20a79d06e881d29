//! The locked state: a machine, its history and the home values, together behind the gate.
//!
//! A [`State`] keeps them in agreement. A seat takes what it holds out of it as a [`Lent`], and gives it back with the event that
//! ends its section or lets its upgrade rise. The value of each resource is in [`Shares`], made beforehand, so that no share is
//! made while the state is held. The module [`laws`] says what holds of every lawful history.
#![tactic(auto)]

mod keep;
mod kept;
pub mod laws;
mod lent;
mod moves;
mod opening;
mod shares;
mod state;
mod whole;

pub use lent::Lent;
pub use opening::Opening;
pub use shares::Shares;
pub use state::State;
pub use whole::Whole;
