//! What covers a wait, and the theorems about it. While a claim waits, at each moment a section goes on that belongs to its
//! cover, which is a small set of sections.
//!
//! The theorems are in [`laws`]. [`WaitEnd`] is a wait that has ended, with the numbers of its cover; the other items are
//! questions about claims at a moment, as the definitions put them.
#![tactic(auto)]

mod claims;
mod keeper;
pub mod laws;
mod wait_end;
mod waits;
mod wanted;

pub use claims::{holds_at, is_claim};
pub use keeper::keeper_at;
pub use wait_end::WaitEnd;
pub use waits::{stands, waits_first, waits_for_ask, waits_to_rise};
pub use wanted::{Wanted, is_wanted};
