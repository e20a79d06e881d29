//! The present state of a lock, for those that watch it. A look takes no lock, and keeps nobody waiting at the lock.
//!
//! A [`Feed`] is given the events of a lock and publishes them. It keeps two copies of a machine: a [`Monitor`] looks at the one
//! that was published last, while the other takes in the next events. A [`Note`] says that events were published; a monitor that
//! has learnt a note shows them at its next look.
#![tactic(auto)]

mod absorbing;
mod feed;
mod fitting;
mod front;
mod image;
mod look;
mod monitor;
mod rule;

pub use feed::Feed;
pub use look::Look;
pub use monitor::{Monitor, Note};
