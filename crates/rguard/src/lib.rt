//! Waits and guards over the locked state.
//!
//! [`Rnlp`] is a runtime, and a [`Seat`] issues its requests. [`Pending`] is a wait, and a [`Guard`] what comes of it: it lends
//! the values that its seat holds, records the acts of the section, and gives the seat back. Each is a thin type round a
//! section, which edits copies of what it is lent. Closing a runtime gives the history, the values and a [`Receipt`].
#![tactic(auto)]

mod acquiring;
mod awaited;
mod closing;
mod copies;
mod counted;
mod first_look;
mod guard;
mod kind;
mod kinds;
mod lock;
mod nest;
mod opening;
mod pending;
mod read;
mod rise;
mod room;
mod scribe;
mod section;
mod section_guard;
mod turns;
mod waking;
mod write;

pub use closing::{Closed, Receipt, close_whole};
pub use guard::Guard;
pub use kind::GuardKind;
pub use kinds::{Editing, Guarding, Nesting, Reading, Rising, Writing};
pub use lock::{FedRnlp, Lock, Rnlp};
pub use nest::NestGuard;
pub use opening::open;
pub use pending::{Looked, Pending};
pub use read::ReadGuard;
pub use rise::RiseGuard;
pub use scribe::Scribe;
pub use section::Seat;
pub use section_guard::SectionGuard;
pub use write::WriteGuard;
