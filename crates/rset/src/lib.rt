//! Sets of resources and tables of names, for the layers above.
//!
//! A set is a finite set of numbers and a table is a list of different names: no contract tells how either is kept.
//! Every operation on sets is a few machine instructions and takes no memory.
#![tactic(auto)]

mod hints;
mod members;
mod names;
mod resources;

pub use members::Members;
pub use names::{NameErr, NameTable};
pub use resources::ResourceSet;

/// The number of resources that there may be: they are numbered from 0. Its type is wider than that of their numbers, as 256 is no
/// `u8`.
pub const RESOURCES: u16 = 64;

/// The number of seats that there may be: they are numbered from 0.
pub const SEATS: u8 = 64;

/// The most bytes that a name may have.
pub const LONGEST_NAME: usize = 16;

// Users know these numbers, so a change of one is to be meant.
const _: () = prove!(RESOURCES == 64);

const _: () = prove!(SEATS == 64);

const _: () = prove!(LONGEST_NAME == 16);
