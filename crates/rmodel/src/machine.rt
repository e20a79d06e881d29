// What every machine of the protocol does.
ghost use Rattle.std.specs.Prelude.{◌≡◌, ◌≤◌, ◌↔◌, List, Option, None, IfOk, OnOk, OnErr, IfErr, IsOk, Some, not, ◌&&◌};
ghost use Rattle.rset.specs.declared.TheConstants.{SEATS};
ghost use Rattle.rclaim.specs.Changes.{ChangeLists, no_changes};
ghost use Rattle.rclaim.specs.Events.{IsNormalEvent};
ghost use Rattle.rmodel.specs.Changes.{changes_between, status_in, AreActive};
ghost use Rattle.rmodel.specs.Holds.{holds_of, has_request};
ghost use Rattle.rmodel.specs.State.{LockState, opening};
ghost use Rattle.rmodel.specs.Steps.{Fits, Accepts, Steps, refusal, next, incomplete_of, is_not_holding};
ghost use Rattle.rwatch.specs.Seen.{Seen, watched_next};

use crate::{Granted, Refused};
use rclaim::{Changes, Event, Status};
use rexpand::Groups;
use std::alloc::{AllocError, Global};

/// A lock state that events change, one at a time, by the rules. All room is made by [`Machine::new`]. It may be dropped at
/// any time, and moved to another thread.
pub trait Machine: Drop + Send {
    /// The lock state.
    ghost state: { Self → LockState };

    /// The changes of the last accepted step.
    ghost last: { Self → ChangeLists };

    /// What its watchers have seen, in order; None where nobody can watch.
    ghost watched: { Self → Option (List Seen) };

    /// A machine with no claims, over the resources of `groups`, for `seats` seats and at most `cap` incomplete requests.
    ///
    /// # Errors
    ///
    /// Out of memory.
    fn new(alloc: Global, groups: Groups, seats: u8, cap: u8) -> Result<Self, AllocError>
        requires seats { (1 ≤ seats) × (seats ≤ SEATS) }
        requires cap { (1 ≤ cap) × (cap ≤ SEATS) }
        ensures opening { IfOk result (λ m. state m ≡ opening groups seats cap) }
        ensures untold { IfOk result (λ m. last m ≡ no_changes) }
        ensures unwatched { IfOk result (λ m. watched m ≡ None) };

    /// One event: it changes the claims, and then they are settled once. Each status that is reported is entitled or satisfied.
    /// Watchers are given the step.
    ///
    /// # Errors
    ///
    /// The first cause against the event, in the order of [`Refused`]. Then nothing changes, not even the last changes.
    fn step(&mut self, event: Event) -> Result<(), Refused>
        requires { Fits (state self.old) event }
        ensures accepted { IsOk result ↔ Accepts (state self.old) event }
        ensures refused { IfErr result (λ cause. refusal (state self.old) event ≡ Some cause) }
        ensures unchanged { OnErr result (state self.new ≡ state self.old) }
        ensures untold { OnErr result (last self.new ≡ last self.old) }
        ensures step { OnOk result (Steps (state self.old) event (state self.new)) }
        ensures after { OnOk result (state self.new ≡ next (state self.old) event) }
        ensures changes { OnOk result (last self.new ≡ changes_between (state self.old) (state self.new)) }
        ensures active { OnOk result (AreActive (last self.new).statuses) }
        ensures normal { OnOk result (IsNormalEvent event) }
        ensures told { OnOk result (watched self.new ≡ watched_next event (last self.new) (watched self.old)) }
        ensures silent { OnErr result (watched self.new ≡ watched self.old) };

    /// The changes of the last accepted step.
    fn changes(&self) -> &Changes
        ensures { result.now ≡ last self.now };

    /// What the request of the seat holds.
    fn granted(&self, seat: u8) -> Granted
        ensures { result ≡ holds_of (state self.now).claims seat };

    /// Whether the seat has a request that holds nothing, or that has a pending ask.
    fn pending(&self, seat: u8) -> bool
        ensures { result ≡ (has_request (state self.now).claims seat && is_not_holding (state self.now).claims seat) };

    /// Whether the seat has no incomplete request.
    fn idle(&self, seat: u8) -> bool
        ensures { result ≡ not (has_request (state self.now).claims seat) };

    /// The status of the read claim, or the write claim, of the request of the seat; None where there is none.
    fn status(&self, seat: u8, write_half: bool) -> Option<Status>
        ensures { result ≡ status_in (state self.now).claims seat write_half };

    /// The number of incomplete requests.
    fn incomplete(&self) -> u8
        ensures value { result ≡ incomplete_of (state self.now) }
        ensures bound { result ≤ (state self.now).cap };

    /// The number of issues so far.
    fn issued(&self) -> u64
        ensures { result ≡ (state self.now).issued };

    /// The read groups.
    fn groups(&self) -> &Groups
        ensures { result.now ≡ (state self.now).groups };

    /// The number of seats.
    fn seats(&self) -> u8
        ensures value { result ≡ (state self.now).seats }
        ensures some { 1 ≤ (state self.now).seats }
        ensures bound { (state self.now).seats ≤ SEATS };

    /// The greatest number of incomplete requests.
    fn cap(&self) -> u8
        ensures value { result ≡ (state self.now).cap }
        ensures some { 1 ≤ (state self.now).cap }
        ensures bound { (state self.now).cap ≤ SEATS };
}
