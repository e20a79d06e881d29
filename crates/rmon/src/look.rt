//! What a look shows.
ghost use Rattle.std.specs.Prelude.{◌≡◌, length};
ghost use Rattle.rmon.specs.Looks.{all_held, look_of};

use crate::image::Image;
use rmodel::{Granted, Machine};
use rplain::Plain;
use rset::ResourceSet;

/// The state of a lock after some events, in brief.
#[derive(Clone, Copy, Debug)]
pub struct Look {
    /// How many events.
    pub events: u64,
    /// How many requests are incomplete.
    pub incomplete: u8,
    /// How many seats hold something.
    pub holding: u8,
    /// What any seat holds for reading.
    pub reads: ResourceSet,
    /// What any seat holds for writing.
    pub writes: ResourceSet,
}

// How many seats hold something, and what all seats hold.
fn all_held(machine: &Plain) -> (u8, Granted)
    ensures { result ≡ all_held machine.now.state.claims machine.now.state.seats }
{
    let mut holding = 0;
    let mut all = Granted::nothing();
    for seat in 0..machine.seats() {
        let held = machine.granted(seat);
        if !held.is_nothing() {
            holding += 1;
        }
        all = all.both(&held);
    }
    (holding, all)
}

/// A look at an image.
pub fn look_at(image: &Image) -> Look
    ensures { result ≡ look_of image.now.machine.state (length image.now.front.events) }
{
    let (holding, all) = all_held(&image.machine);
    Look {
        events: image.front.count(),
        incomplete: image.machine.incomplete(),
        holding,
        reads: all.reads,
        writes: all.writes,
    }
}
