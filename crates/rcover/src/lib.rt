//! The covers of waits, followed from event to event.
//!
//! [`Following`] steps its caller's machine by each event, and answers the waits that the event ended, with the numbers of their
//! covers. [`Covers`] does the same with a machine of its own. Neither keeps a list of events: of each wait they keep the
//! sections of its closed periods (`run`), and of each write the least claim of its line (`heads`).
#![tactic(auto)]

mod covers;
mod ended;
mod follow;
mod following;
mod heads;
mod lines;
mod noted;
mod reading;
mod rising;
mod run;
mod seats;
mod section;
mod seen;
mod shares;
mod stood;
mod turns;
mod waiting;
mod waiting_reads;
mod writes_told;

pub use covers::Covers;
pub use following::Following;
