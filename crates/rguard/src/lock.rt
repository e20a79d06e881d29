//! The runtime of a lock: the locked state behind a gate.
ghost use Rattle.std.specs.Prelude.{◌≡◌, ℕ, ◌<◌, ◌≤◌, ◌++◌, [], IfOk, IfErr, OnErr, Some, All, Any, length, map, option_map, replicate, slice_get};
ghost use Rattle.std.specs.Arc.{arc_value};
ghost use Rattle.rmodel.specs.Holds.{nothing};
ghost use Rattle.rlock.specs.Known.{newcomer};
ghost use Rattle.rstate.specs.Histories.{Beginning};
ghost use Rattle.rguard.specs.Closing.{IsClosedBy, IsToldTo};
ghost use Rattle.rguard.specs.Seats.{IsOf, IsIdle, Goes, IsOneTurn};
ghost use Rattle.rguard.specs.Scribes.{IsScribeOf, HasReadLawful, events_from};

use crate::closing::Closed;
use crate::counted::CountedGate;
use crate::scribe::Scribe;
use crate::section::Seat;
use rclaim::Event;
use rlock::Kept;
use rmodel::Machine;
use rstate::State;
use rvalue::Editable;
use rwatch::Audience;
use rwatching::Watching;
use std::alloc::{AllocError, Global};
use std::marker::Model;
use std::sync::Wait;

/// A state behind a gate, which threads may share. Contracts see which gate it is, and its numbers of seats and passes.
#[derive(Drop)]
pub struct Lock<S: Kept, T> {
    pub(crate) gate: CountedGate<S, T>,
}

impl<S: Kept, T> Model for Lock<S, T> {
    ghost use Rattle.rlock.specs.Known.{Site};

    ghost Value = { Site };

    ghost view = { λ a. a.gate };
}

/// A runtime of reader and writer locks over many resources: the locked state behind a gate.
pub type Rnlp<T, M> = Lock<State<T, M>, T>;

/// The same over a machine that is watched.
pub type WatchedRnlp<T, M, A> = Rnlp<T, Watching<M, A>>;

/// A seat of a runtime whose machine is watched.
pub type WatchedSeat<T, M, A> = Seat<T, Watching<M, A>>;

/// A runtime, its seats, and its scribe.
pub type FedRnlp<T, M> = (Rnlp<T, M>, Vec<Seat<T, M>>, Scribe<T, M>);

impl<T: Editable, M: Machine> Lock<State<T, M>, T> {
    /// A runtime over a machine at which nothing was done, with a value for each resource, and its seats, numbered from 0 in
    /// order. No seat has seen or made anything.
    ///
    /// # Errors
    ///
    /// Out of memory. Machine and values are dropped.
    pub fn new(
        alloc: Global,
        machine: M,
        values: Vec<T>,
        seats: u8,
    ) -> Result<(Rnlp<T, M>, Vec<Seat<T, M>>), AllocError>
        requires claims { (M.state machine).claims ≡ [] }
        requires issued { (M.state machine).issued ≡ 0 }
        requires values { length values.items ≡ (M.state machine).groups.q }
        requires seats { seats ≡ (M.state machine).seats }
        requires cap { seats ≤ (M.state machine).cap }
        ensures count { IfOk result (λ r. (r.0.passes ≡ seats) × (length r.1.items ≡ seats)) }
        ensures seats { IfOk result (λ r. All (λ seat. IsOf r.0 seat × IsIdle seat) r.1.items) }
        ensures each { IfOk result (λ r. (k : ℕ) → k < seats → slice_get r.1.items k ≡ Some (let began : Beginning T = record { groups = (M.state machine).groups; seats = (M.state machine).seats; cap = (M.state machine).cap; values = values.items; watched = M.watched machine } in
            newcomer r.0.gate k began (record { beginning = began; entries = []; taken = replicate (M.state machine).seats nothing }))) }
    {
        match crate::opening::open(alloc, machine, values, seats) {
            Ok((gate, all)) => Ok((Lock { gate }, all)),
            Err(e) => Err(e),
        }
    }

    /// Closes the runtime with all of its seats, all of them idle. Takes no memory.
    ///
    /// The history is lawful from the beginning, begins with what each seat has seen, and has for each seat just the entries that
    /// it has made. The values are those that the history makes.
    pub fn close(self, seats: Vec<Seat<T, M>>) -> Closed<T>
        requires of { All (λ seat. IsOf self seat) seats.items }
        requires idle { All (λ seat. IsIdle seat) seats.items }
        requires all { (n : ℕ) → n < self.passes → Any (λ seat. seat.number ≡ n) seats.items }
        ensures seats { All (λ seat. IsClosedBy T.after T.taken T.number result.0.entries (map arc_value result.1.items) seat) seats.items }
        ensures receipt { result.2 ≡ result.0.entries }
    {
        let Lock { gate } = self;
        crate::closing::close(gate, seats)
    }

    /// The same as `close`, and gives the machine too. Its watchers, if it has any, have been given just the steps of the
    /// history, in order. Takes no memory.
    pub fn close_whole(self, seats: Vec<Seat<T, M>>) -> (Closed<T>, M)
        requires of { All (λ seat. IsOf self seat) seats.items }
        requires idle { All (λ seat. IsIdle seat) seats.items }
        requires all { (n : ℕ) → n < self.passes → Any (λ seat. seat.number ≡ n) seats.items }
        ensures seats { All (λ seat. IsClosedBy T.after T.taken T.number result.0.0.entries (map arc_value result.0.1.items) seat) seats.items }
        ensures receipt { result.0.2 ≡ result.0.0.entries }
        ensures told { All (λ seat. IsToldTo (M.watched result.1) result.0.0.entries seat) seats.items }
    {
        let Lock { gate } = self;
        crate::closing::close_whole(gate, seats)
    }

    /// The same as `new`, with a scribe, which has seen nothing and knows how the runtime began. Close such a runtime by
    /// `close_fed`.
    ///
    /// # Errors
    ///
    /// Out of memory. Machine and values are dropped.
    pub fn new_fed(
        alloc: Global,
        machine: M,
        values: Vec<T>,
        seats: u8,
    ) -> Result<FedRnlp<T, M>, AllocError>
        requires claims { (M.state machine).claims ≡ [] }
        requires issued { (M.state machine).issued ≡ 0 }
        requires values { length values.items ≡ (M.state machine).groups.q }
        requires seats { seats ≡ (M.state machine).seats }
        requires cap { seats ≤ (M.state machine).cap }
        ensures count { IfOk result (λ r. (r.0.seats ≡ seats) × (length r.1.items ≡ seats)) }
        ensures seats { IfOk result (λ r. All (λ seat. IsOf r.0 seat × IsIdle seat) r.1.items) }
        ensures each { IfOk result (λ r. (k : ℕ) → k < seats → slice_get r.1.items k ≡ Some (let began : Beginning T = record { groups = (M.state machine).groups; seats = (M.state machine).seats; cap = (M.state machine).cap; values = values.items; watched = M.watched machine } in
            newcomer r.0.gate k began (record { beginning = began; entries = []; taken = replicate (M.state machine).seats nothing }))) }
        ensures scribe { IfOk result (λ r. IsScribeOf r.0 r.2) }
        ensures its { IfOk result (λ r. r.2 ≡ (let began : Beginning T = record { groups = (M.state machine).groups; seats = (M.state machine).seats; cap = (M.state machine).cap; values = values.items; watched = M.watched machine } in
            newcomer r.0.gate seats began (record { beginning = began; entries = []; taken = replicate (M.state machine).seats nothing }))) }
    {
        match crate::opening::open_fed(alloc, machine, values, seats) {
            Ok((gate, all, scribe)) => Ok((Lock { gate }, all, scribe)),
            Err(e) => Err(e),
        }
    }

    /// Reads, in one turn, the events of the history from a position on that the scribe has seen. The scribe has then seen the
    /// history, which is lawful.
    ///
    /// # Errors
    ///
    /// Out of memory. Nothing was read, and the scribe comes back.
    pub fn read_on<R: Wait>(
        &self,
        rt: &R,
        scribe: Scribe<T, M>,
        from: usize,
        into: &mut Vec<Event>,
    ) -> Result<Scribe<T, M>, (Scribe<T, M>, AllocError)>
        requires of { IsScribeOf self.now scribe }
        requires from { from ≤ length scribe.seen }
        ensures of { IfOk result (IsScribeOf self.now) }
        ensures goes { IfOk result (Goes scribe []) }
        ensures turn { IfOk result (IsOneTurn scribe []) }
        ensures lawful { IfOk result (HasReadLawful T.after T.taken T.number) }
        ensures read { IfOk result (λ s. into.new.items ≡ into.old.items ++ events_from from s.seen) }
        ensures of_err { IfErr result (λ e. IsScribeOf self.now e.0) }
        ensures goes_err { IfErr result (λ e. Goes scribe [] e.0) }
        ensures lawful_err { IfErr result (λ e. HasReadLawful T.after T.taken T.number e.0) }
        ensures err { OnErr result (into.new.items ≡ into.old.items) }
    {
        crate::scribe::read_on(&self.gate, rt, scribe, from, into)
    }

    /// Closes the runtime with all of its seats, all of them idle, and its scribe. Takes no memory.
    ///
    /// The same holds as after `close`, and the history begins with what the scribe has seen.
    pub fn close_fed(self, seats: Vec<Seat<T, M>>, scribe: Scribe<T, M>) -> Closed<T>
        requires of { All (λ seat. IsOf self seat) seats.items }
        requires idle { All (λ seat. IsIdle seat) seats.items }
        requires all { (n : ℕ) → n < self.seats → Any (λ seat. seat.number ≡ n) seats.items }
        requires scribe { IsScribeOf self scribe }
        ensures seats { All (λ seat. IsClosedBy T.after T.taken T.number result.0.entries (map arc_value result.1.items) seat) seats.items }
        ensures scribe { IsClosedBy T.after T.taken T.number result.0.entries (map arc_value result.1.items) scribe }
        ensures receipt { result.2 ≡ result.0.entries }
    {
        let Lock { gate } = self;
        crate::closing::close_fed(gate, seats, scribe)
    }
}

impl<T: Editable, M: Machine, A: Audience> Lock<State<T, Watching<M, A>>, T> {
    /// The same as [`Lock::new`], with watchers: they are under the lock with the machine, and are given each event in the turn
    /// that adds it.
    ///
    /// # Errors
    ///
    /// Out of memory. Machine, values and watchers are dropped.
    pub fn new_watched(
        alloc: Global,
        machine: M,
        values: Vec<T>,
        seats: u8,
        audience: A,
    ) -> Result<(WatchedRnlp<T, M, A>, Vec<WatchedSeat<T, M, A>>), AllocError>
        requires claims { (M.state machine).claims ≡ [] }
        requires issued { (M.state machine).issued ≡ 0 }
        requires values { length values.items ≡ (M.state machine).groups.q }
        requires seats { seats ≡ (M.state machine).seats }
        requires cap { seats ≤ (M.state machine).cap }
        ensures count { IfOk result (λ r. (r.0.passes ≡ seats) × (length r.1.items ≡ seats)) }
        ensures seats { IfOk result (λ r. All (λ seat. IsOf r.0 seat × IsIdle seat) r.1.items) }
        ensures each { IfOk result (λ r. (k : ℕ) → k < seats → slice_get r.1.items k ≡ Some (let began : Beginning T = record { groups = (M.state machine).groups; seats = (M.state machine).seats; cap = (M.state machine).cap; values = values.items; watched = Some (A.all audience) } in
            newcomer r.0.gate k began (record { beginning = began; entries = []; taken = replicate (M.state machine).seats nothing }))) }
    {
        match crate::opening::open(
            alloc,
            Watching::new_watched(machine, audience),
            values,
            seats,
        ) {
            Ok((gate, all)) => Ok((Lock { gate }, all)),
            Err(e) => Err(e),
        }
    }

    /// The same as [`Lock::close`], and hands back the watchers, or None if there were none. They have been given just the steps
    /// of the history, in order. Takes no memory.
    pub fn close_watched(self, seats: Vec<WatchedSeat<T, M, A>>) -> (Closed<T>, Option<A>)
        requires of { All (λ seat. IsOf self seat) seats.items }
        requires idle { All (λ seat. IsIdle seat) seats.items }
        requires all { (n : ℕ) → n < self.passes → Any (λ seat. seat.number ≡ n) seats.items }
        ensures seats { All (λ seat. IsClosedBy T.after T.taken T.number result.0.0.entries (map arc_value result.0.1.items) seat) seats.items }
        ensures receipt { result.0.2 ≡ result.0.0.entries }
        ensures told { All (λ seat. IsToldTo (option_map A.all result.1) result.0.0.entries seat) seats.items }
    {
        let Lock { gate } = self;
        let (closed, machine) = crate::closing::close_whole(gate, seats);
        (closed, machine.into_audience())
    }
}
