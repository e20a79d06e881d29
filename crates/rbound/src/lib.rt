//! What tasks need, the zones of these needs, and the bounds of their waits.
//!
//! [`Needs`] are the requests and asks of each task, with the claims that they make. [`zone_of`] finds the zone of some
//! places, and [`bound_of`] the [`Bound`] of a wait. Both look through all claims; `rbound_table` has tables for many bounds.
#![tactic(auto)]

mod bound;
pub mod laws;
mod longest;
mod made;
mod needed;
mod needs;
mod read_wait;
mod requests;
mod row;
mod rows;
mod which;
mod write_wait;
mod zone;

pub use bound::{Bound, write_bound};
pub use longest::longer;
pub use needed::Needed;
pub use needs::{Needs, bound_of, zone_of};
pub use rows::ZoneRows;
pub use which::Which;
