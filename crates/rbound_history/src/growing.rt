// What a history needs, gathered event by event.
ghost use Rattle.std.specs.Prelude.{◌≡◌, ◌≤◌, ◌<◌, ◌++◌, ◌∷◌, ◌⊎◌, [], ℕ, List, Some, IfOk, IsOk, OnOk, OnErr, true, length, slice_get, slice_set};
ghost use Rattle.rexpand.specs.Groups.{ReadGroups};
ghost use Rattle.rclaim.specs.declared.event.Event.{Event};
ghost use Rattle.rclaim.specs.declared.event.Event.TheVariants.{Finish, Rise};
ghost use Rattle.rmodel.specs.State.{opening};
ghost use Rattle.rmodel.specs.Steps.{AreAccepted};
ghost use Rattle.rbound_history.specs.Shapes.{with_shape, shape_index, with_shape_ask, ask_index, is_nested_at};
ghost use Rattle.rbound_history.specs.declared.growing.Last.{Last};
ghost use Rattle.rbound_history.specs.History.{shapes_told};
ghost use Rattle.rbound_history.specs.Keys.{IsLastEnded, IsKeyOf};
ghost use Rattle.rbound_history.specs.Knows.{Knows, AreBoundsOf};

use crate::bounds::{WaitBounds, places_of};
use crate::key::BoundKey;
use crate::shapes::Shapes;
use rbound::Which;
use rbound_table::Bounds;
use rclaim::{Event, Request};
use rcover_laws::WaitEnd;
use rexpand::Groups;
use rset::ResourceSet;
use std::alloc::{AllocError, Global};

/// For the last request of a seat, the place of its shape, and the number of its last ask among the different asks of the shape.
#[derive(Clone, Copy)]
pub(crate) struct Last {
    pub(crate) place: usize,
    pub(crate) ask: usize,
}

/// What a history needs so far, by the shapes of its requests. It keeps no list of events.
#[derive(Drop)]
pub struct GrowingNeeds {
    shapes: Shapes,
    /// For each seat.
    last: Vec<Last>,
}

impl GrowingNeeds {
    /// The needs of a history without events, for this many tasks: one at each seat.
    ///
    /// # Errors
    ///
    /// Out of memory.
    pub fn new(alloc: Global, tasks: u8) -> Result<GrowingNeeds, AllocError>
        ensures { IfOk result (λ made. Knows made tasks []) }
    {
        let last = vec![in alloc; Last { place: 0, ask: 0 }; usize::from(tasks)]?;
        Ok(GrowingNeeds {
            shapes: Shapes::new(alloc, tasks)?,
            last,
        })
    }

    /// Takes an event, which is accepted after those that were given before. Memory is taken for shapes and for the sets that
    /// they ask for, not for events. A finish or a rise changes nothing.
    ///
    /// # Errors
    ///
    /// Out of memory; never for a finish or a rise. Then nothing changes.
    pub fn told(&mut self, event: &Event) -> Result<(), AllocError>
        requires { (groups : ReadGroups) × (seats : ℕ) × (cap : ℕ) × (events : List Event) × Knows self.old seats events × AreAccepted (opening groups seats cap) (events ++ event.now ∷ []) }
        ensures ok { OnOk result ((groups : ReadGroups) (seats cap : ℕ) (events : List Event) → Knows self.old seats events → AreAccepted (opening groups seats cap) (events ++ event.now ∷ []) → Knows self.new seats (events ++ event.now ∷ [])) }
        ensures err { OnErr result (self.new ≡ self.old) }
        ensures succeeds { (seat : ℕ) → ((event.now ≡ Finish seat) ⊎ (event.now ≡ Rise seat)) → IsOk result }
        ensures still { (seat : ℕ) → ((event.now ≡ Finish seat) ⊎ (event.now ≡ Rise seat)) → self.new ≡ self.old }
    {
        match event {
            Event::Issue { seat, request } => self.take_request(*seat, *request),
            Event::Ask { seat, set } => self.take_ask(*seat, *set),
            Event::Finish { .. } | Event::Rise { .. } => Ok(()),
        }
    }

    /// Takes a request of a seat, which is its last one from now on. If memory runs out, nothing changes.
    fn take_request(&mut self, seat: u8, request: Request) -> Result<(), AllocError>
        requires task { seat < self.old.shapes.tasks }
        requires seat { seat < length self.old.last.items }
        ensures shapes { OnOk result (self.new.shapes ≡ record self.old.shapes { shapes = with_shape self.old.shapes.shapes seat request }) }
        ensures last { OnOk result (self.new.last.items ≡ slice_set self.old.last.items seat (record { place = shape_index self.old.shapes.shapes seat request; ask = 0 })) }
        ensures err { OnErr result (self.new ≡ self.old) }
    {
        let place = self.shapes.add(seat, request)?;
        self.last[usize::from(seat)] = Last { place, ask: 0 };
        Ok(())
    }

    /// Takes a set that the last request of a seat asks for. If memory runs out, nothing changes.
    fn take_ask(&mut self, seat: u8, set: ResourceSet) -> Result<(), AllocError>
        requires { (last : Last) × (slice_get self.old.last.items seat ≡ Some last) × (is_nested_at self.old.shapes.shapes last.place ≡ true) }
        ensures shapes { OnOk result ((last : Last) → slice_get self.old.last.items seat ≡ Some last → self.new.shapes ≡ record self.old.shapes { shapes = with_shape_ask self.old.shapes.shapes last.place set }) }
        ensures last { OnOk result ((last : Last) → slice_get self.old.last.items seat ≡ Some last → self.new.last.items ≡ slice_set self.old.last.items seat (record { place = last.place; ask = ask_index self.old.shapes.shapes last.place set })) }
        ensures err { OnErr result (self.new ≡ self.old) }
    {
        let place = self.last[usize::from(seat)].place;
        let ask = self.shapes.add_ask(place, set)?;
        self.last[usize::from(seat)] = Last { place, ask };
        Ok(())
    }

    /// The key of a wait that the last event ended; its bound is found by it. Takes no memory. The key stays right whatever comes.
    pub fn key(&self, wait: &WaitEnd) -> BoundKey
        requires { (groups : ReadGroups) × (seats : ℕ) × (cap : ℕ) × (events : List Event) × Knows self.now seats events × IsLastEnded groups seats cap events wait.now }
        ensures key { (groups : ReadGroups) (seats cap : ℕ) (events : List Event) → Knows self.now seats events → IsLastEnded groups seats cap events wait.now → IsKeyOf groups seats cap events wait.now result }
        ensures shape { (seats : ℕ) (events : List Event) → Knows self.now seats events → result.shape < length (shapes_told events) }
    {
        let last = &self.last[usize::from(wait.seat)];
        let which = match wait.which {
            Which::First => Which::First,
            Which::Rise => Which::Rise,
            Which::Ask(_) => Which::Ask(last.ask),
        };
        BoundKey {
            shape: last.place,
            which,
        }
    }

    /// The number of different shapes so far: the shape of each key is below it.
    pub fn len(&self) -> usize
        ensures { (seats : ℕ) (events : List Event) → Knows self.now seats events → result ≡ length (shapes_told events) }
    {
        self.shapes.len()
    }

    /// The bounds of all waits of the history, which is now complete, over its groups and under its cap.
    ///
    /// # Errors
    ///
    /// Out of memory.
    pub fn bounds(&self, alloc: Global, groups: Groups, cap: u8) -> Result<WaitBounds, AllocError>
        requires cap { 1 ≤ cap }
        requires told { (seats : ℕ) × (events : List Event) × Knows self.now seats events × AreAccepted (opening groups seats cap) events }
        ensures { IfOk result (λ bounds. (seats : ℕ) (events : List Event) → Knows self.now seats events → AreAccepted (opening groups seats cap) events → AreBoundsOf bounds groups seats cap events) }
    {
        let needs = self.shapes.needs(alloc, groups)?;
        let places = places_of(alloc, &self.shapes)?;
        Ok(WaitBounds {
            bounds: Bounds::of(alloc, needs, cap)?,
            places,
        })
    }
}
