//! What each of the two copies is, and what is done to each.
use crate::front::Front;
use rclaim::Event;
use rplain::Plain;

/// A machine, and how far it has come.
#[derive(Drop)]
pub struct Image {
    pub machine: Plain,
    pub front: Front,
}

/// A change of an image.
#[derive(Drop)]
pub enum Change {
    /// The machine takes an event.
    Take(Event),
    /// With the changes so far, the image has reached this front.
    Reach(Front),
}
