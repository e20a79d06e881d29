// The reported bounds of the waits of one history, which is given event by event.
ghost use Rattle.std.specs.Prelude.{◌≡◌, ◌≤◌, ◌++◌, ◌∷◌, [], ℕ, List, IfOk, OnOk, OnErr, map};
ghost use Rattle.rexpand.specs.Groups.{ReadGroups};
ghost use Rattle.rclaim.specs.declared.event.Event.{Event};
ghost use Rattle.rmodel.specs.State.{opening};
ghost use Rattle.rmodel.specs.Steps.{AreAccepted};
ghost use Rattle.rbound.specs.Bounds.{numbers_in};
ghost use Rattle.rtrace_form.specs.WrongBounds.{first_other};
ghost use Rattle.rbound_history.specs.Keys.{IsLastEnded};
ghost use Rattle.rbound_history.specs.Knows.{AreBoundsOf, bound_by};
ghost use Rattle.rtrace.specs.Told.{Told, said, waits_of, AreBefore};
ghost use Rattle.rtrace.specs.Kept.{least_wrong};
ghost use Rattle.rtrace.specs.Knows.{KnowsTold, AreOfWaits, bound_of_key};

use crate::kept_bounds::{Kept, lesser};
use crate::key::Key;
use indexmap::IndexMap;
use rbound::Bound;
use rbound_history::{GrowingNeeds, WaitBounds};
use rclaim::Event;
use rcover_laws::WaitEnd;
use rexpand::Groups;
use std::alloc::{AllocError, Global};

/// The reported bounds of the waits of a history, and what the history needs so far. It keeps no list of records, waits
/// or events.
#[derive(Drop)]
pub struct ToldBounds {
    needs: GrowingNeeds,
    /// For each key with a reported bound.
    kept: IndexMap<Key, Kept>,
}

impl ToldBounds {
    /// A history without events, of so many tasks: one at each seat. No bound is reported yet.
    ///
    /// # Errors
    ///
    /// Out of memory.
    pub fn new(alloc: Global, tasks: u8) -> Result<ToldBounds, AllocError>
        ensures { IfOk result (λ made. (groups : ReadGroups) (cap : ℕ) → KnowsTold made groups tasks cap [] []) }
    {
        Ok(ToldBounds {
            needs: GrowingNeeds::new(alloc, tasks)?,
            kept: IndexMap::new(alloc),
        })
    }

    /// Takes the next event of the history, which is accepted after those before.
    ///
    /// # Errors
    ///
    /// Out of memory. Nothing changes then.
    pub fn happen(&mut self, event: &Event) -> Result<(), AllocError>
        requires { (groups : ReadGroups) × (seats : ℕ) × (cap : ℕ) × (events : List Event) × (items : List Told) × KnowsTold self.old groups seats cap events items × AreAccepted (opening groups seats cap) (events ++ event.now ∷ []) }
        ensures ok { OnOk result ((groups : ReadGroups) (seats cap : ℕ) (events : List Event) (items : List Told) → KnowsTold self.old groups seats cap events items → AreAccepted (opening groups seats cap) (events ++ event.now ∷ []) → KnowsTold self.new groups seats cap (events ++ event.now ∷ []) items) }
        ensures err { OnErr result (self.new ≡ self.old) }
    {
        self.needs.told(event)
    }

    /// A record with this number, higher than those before, reports the bound of a wait that the last event ended.
    ///
    /// # Errors
    ///
    /// Out of memory. The bound is not counted then.
    pub fn told(&mut self, wait: &WaitEnd, bound: Bound, number: u64) -> Result<(), AllocError>
        requires { (groups : ReadGroups) × (seats : ℕ) × (cap : ℕ) × (events : List Event) × (items : List Told) × KnowsTold self.old groups seats cap events items × IsLastEnded groups seats cap events wait.now × AreBefore number items }
        ensures ok { OnOk result ((groups : ReadGroups) (seats cap : ℕ) (events : List Event) (items : List Told) → KnowsTold self.old groups seats cap events items → IsLastEnded groups seats cap events wait.now → AreBefore number items → KnowsTold self.new groups seats cap events (items ++ record { number = number; wait = wait.now; bound = numbers_in bound } ∷ [])) }
        ensures err { OnErr result ((groups : ReadGroups) (seats cap : ℕ) (events : List Event) (items : List Told) → KnowsTold self.old groups seats cap events items → KnowsTold self.new groups seats cap events items) }
    {
        let key = Key {
            key: self.needs.key(wait),
        };
        let kept = match self.kept.get(&key) {
            Some(kept) => kept.with(number, bound),
            None => Kept::new(number, bound),
        };
        self.kept.insert(key, kept)?;
        Ok(())
    }

    /// The number of the first record with a wrong bound, once the history is complete, over its groups and under its
    /// cap; None where all were right.
    ///
    /// # Errors
    ///
    /// Out of memory.
    pub fn first_wrong(
        &self,
        alloc: Global,
        groups: Groups,
        cap: u8,
    ) -> Result<Option<u64>, AllocError>
        requires cap { 1 ≤ cap }
        requires told { (seats : ℕ) × (events : List Event) × (items : List Told) × KnowsTold self.now groups seats cap events items }
        ensures { IfOk result (λ first. (seats : ℕ) (events : List Event) (items : List Told) → KnowsTold self.now groups seats cap events items → first ≡ first_other (said items) (map (bound_by groups seats cap events) (waits_of items))) }
    {
        // Where no bound was reported, none is looked up, and no table of bounds is made.
        if self.kept.is_empty() {
            return Ok(None);
        }
        let bounds = self.needs.bounds(alloc, groups, cap)?;
        Ok(self.first_by(&bounds))
    }

    /// The same, given the bounds of all waits of the history.
    fn first_by(&self, bounds: &WaitBounds) -> Option<u64>
        requires { (groups : ReadGroups) × (seats : ℕ) × (cap : ℕ) × (events : List Event) × AreBoundsOf bounds.now groups seats cap events × AreOfWaits groups seats cap events self.now.kept.entries }
        ensures { (groups : ReadGroups) (seats cap : ℕ) (events : List Event) → AreBoundsOf bounds.now groups seats cap events → AreOfWaits groups seats cap events self.now.kept.entries → result ≡ least_wrong (bound_of_key groups seats cap events) self.now.kept.entries }
    {
        let mut first = None;
        for (key, kept) in self.kept.iter() {
            first = lesser(first, kept.wrong(bounds.bound(key.key)));
        }
        first
    }
}
