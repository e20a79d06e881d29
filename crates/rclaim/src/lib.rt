//! Requests, claims and events: what tasks ask of the lock, and what it reports to them.
//!
//! A [`Request`] is made in normal form, so that the layers above need not test it.
//! A [`Claim`] is what the lock keeps of a request while it is incomplete, an [`Event`] is one step of a task,
//! and [`Changes`] are what a step does to the claims.
#![tactic(auto)]

mod changes;
mod claim;
mod event;
mod request;

pub use changes::{Changes, GrantChange, StatusChange};
pub use claim::{Claim, Status};
pub use event::Event;
pub use request::{Kind, Request, RequestErr};

/// The greatest length of a section that a request may declare.
pub const LENGTH_LIMIT: u32 = 1_000_000;

/// How many status changes a list of changes has room for: two claims for each seat.
pub const STATUS_ROOM: usize = 2 * rset::SEATS as usize;

/// How many grants a list of changes has room for: one for each claim.
pub const GRANT_ROOM: usize = STATUS_ROOM;

// Users know this number, so change it only on purpose.
const _: () = prove!(LENGTH_LIMIT == 1_000_000);
