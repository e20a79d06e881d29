//! A ticket lock whose kept history every pass can prove from.
//!
//! A [`Gate`] keeps one state, which has an opening that no turn changes and a list of entries. A [`Pass`] takes turns at it:
//! `enter` waits for the pass's turn, and `leave` ends it. Contracts see what a pass has seen and made as lists, and `close` says
//! that all of it is in the one list that the state has in the end. Whatever else a turn does to the state, every other pass has
//! to allow: at its next turn a pass finds its own part as it left it. [`Roll`] and [`Shelf`] are two sample states.
#![tactic(auto)]

mod board;
mod closing;
mod gate;
mod kept;
mod opening;
mod pass;
mod plays;
mod roll;
mod shelf;
mod turn;
mod view;

pub use gate::Gate;
pub use kept::Kept;
pub use pass::Pass;
pub use roll::{Roll, Signature};
pub use shelf::{Shelf, Spot, add, give_home, take_out};
pub use turn::Turn;
