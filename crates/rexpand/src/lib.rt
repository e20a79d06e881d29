//! Read groups: which resources are shared with one another, and the places that a claim takes.
//!
//! A [`Groups`] is the list of the groups that were declared. What is shared with a resource is the resource itself
//! together with every group that contains it; the places of a write follow from that. [`GroupErr`] says why a group is
//! refused. No contract says how the groups are kept.
#![tactic(auto)]

mod errors;
mod groups;
mod noting;
mod sharing;

pub use errors::GroupErr;
pub use groups::Groups;
use rset::RESOURCES;

/// The number of groups that may be declared.
pub const GROUPS: usize = 256;

// A set holds the numbers of as many groups as there may be resources, so the numbers of all groups take this many blocks.
const BLOCKS: usize = (GROUPS - 1) / RESOURCES as usize + 1;

// Users know this number, so change it only on purpose.
const _: () = prove!(GROUPS == 256);
