//! Workers that watch a runtime while its tasks run: one feeds a monitor, another only looks.
#![tactic(auto)]

mod ending;
mod lookout;
mod rounds;
mod watch;
mod worker;

pub use ending::{Looks, last_looks};
pub use lookout::{LOOKS, Lookout, ROUNDS};
pub use rounds::{feed_and_look, feed_from, feed_rounds, look_rounds};
pub use watch::Watch;
pub use worker::feed_once;
