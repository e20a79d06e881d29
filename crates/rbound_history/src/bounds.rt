// The bounds of all waits of a history.
ghost use Rattle.std.specs.Prelude.{◌≡◌, ◌++◌, ℕ, List, IfOk};
ghost use Rattle.rexpand.specs.Groups.{ReadGroups};
ghost use Rattle.rclaim.specs.declared.event.Event.{Event};
ghost use Rattle.rbound.specs.Bounds.{numbers_in};
ghost use Rattle.rcover_laws.specs.declared.wait_end.WaitEnd.{WaitEnd};
ghost use Rattle.rbound_history.specs.Keys.{IsKeyOf};
ghost use Rattle.rbound_history.specs.Knows.{ArePlaces, AreBoundsOf, bound_by};

use crate::key::BoundKey;
use crate::shapes::Shapes;
use rbound::Bound;
use rbound_table::Bounds;
use std::alloc::{AllocError, Global};

/// The place of a shape among those of all tasks.
#[derive(Clone, Copy)]
pub(crate) struct Place {
    pub(crate) task: u8,
    pub(crate) number: usize,
}

/// The bounds of all waits of a history that is complete.
#[derive(Drop)]
pub struct WaitBounds {
    pub(crate) bounds: Bounds,
    pub(crate) places: Vec<Place>,
}

impl WaitBounds {
    /// The bound of a wait, by what the whole history needs. It takes no memory.
    pub fn bound(&self, key: BoundKey) -> Bound
        requires { (groups : ReadGroups) × (seats : ℕ) × (cap : ℕ) × (events : List Event) × (rest : List Event) × (wait : WaitEnd) × AreBoundsOf self.now groups seats cap (events ++ rest) × IsKeyOf groups seats cap events wait key }
        ensures { (groups : ReadGroups) (seats cap : ℕ) (events rest : List Event) (wait : WaitEnd) → AreBoundsOf self.now groups seats cap (events ++ rest) → IsKeyOf groups seats cap events wait key → numbers_in result ≡ bound_by groups seats cap (events ++ rest) wait }
    {
        let place = &self.places[key.shape];
        self.bounds.bound(place.task, place.number, key.which)
    }
}

/// The place of each of these shapes.
pub(crate) fn places_of(alloc: Global, shapes: &Shapes) -> Result<Vec<Place>, AllocError>
    ensures { IfOk result (λ places. ArePlaces shapes.now.shapes places.items) }
{
    let mut places = Vec::with_capacity(alloc, shapes.len())?;
    for shape in 0..shapes.len() {
        let (task, number) = shapes.place(shape);
        places.push(Place { task, number })?;
    }
    Ok(places)
}
