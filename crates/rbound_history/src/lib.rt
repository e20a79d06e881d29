//! The bounds of waits, by what a whole history needs, gathered event by event.
//!
//! [`GrowingNeeds`] takes each event and keeps only the shapes of the requests: requests of one task that differ in nothing
//! but their lengths and asks have one shape. A wait gets a [`BoundKey`] when it ends, and at the end [`WaitBounds`] finds its
//! bound by that key. The module [`laws`] says that shapes give the same bounds.
#![tactic(auto)]

mod bounds;
mod growing;
mod key;
pub mod laws;
mod lengths;
mod needed;
mod numbered;
mod places;
mod shape_key;
mod shape_numbers;
mod shapes;
mod shelf;
mod table;

pub use bounds::WaitBounds;
pub use growing::GrowingNeeds;
pub use key::BoundKey;
