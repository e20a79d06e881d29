//! Watchers: objects of the caller that are given each step of a lock, and count or keep what they are given.
//!
//! A step is an event and what it changed. A [`Watcher`] has a [`WatchKind`], and its count grows by the weight of the
//! step for that kind. [`Counter`] only counts; [`Recorder`] keeps the events too. [`Watchers`] is a list of boxed
//! watchers, and [`Audience`] is what the layers above are generic over.
#![tactic(auto)]

mod counter;
mod kinds;
pub mod laws;
mod recorder;
mod watcher;
mod watchers;

pub use counter::Counter;
pub use kinds::WatchKind;
pub use recorder::Recorder;
pub use watcher::{Audience, Watcher};
pub use watchers::Watchers;
