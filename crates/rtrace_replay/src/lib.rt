//! Replays an event list: [`replay_of`] makes its report in one pass, without keeping events. [`recorded_replay_of`]
//! keeps them too, as [`Steps`] for those who watch.
#![tactic(auto)]

mod recording;
mod replaying;
mod steps;

pub use recording::{Recorded, recorded_replay_of};
pub use replaying::{Replayed, replay_of};
pub use rtrace_read::{AT_LEDGERS, ReportReader};
pub use steps::Steps;
