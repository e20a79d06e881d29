//! The drill: a long list of events that is drawn as it runs, for any machine and any audience.
//!
//! Each event is drawn by the state of the lock after those before it, so every event is accepted. What is drawn is defined
//! in `specs/Drill.antt`. [`drill`] gives each event to the machine and each step to the audience, and [`push_summary`]
//! writes what came of it.
#![tactic(auto)]

mod dice;
mod drawing;
mod requests;
mod summary;

pub use drawing::{MOST_EVENTS, drill, drill_machine};
pub use summary::{
    LINE_ROOM, lines_room, push_count, push_piece, push_summary, push_watchers, summary_room,
};
