//! A gate over a new locked state, and its seats.
ghost use Rattle.std.specs.Prelude.{◌≡◌, ℕ, ◌+◌, ◌<◌, ◌≤◌, [], IfOk, Some, All, length, replicate, slice_get};
ghost use Rattle.rmodel.specs.Holds.{nothing};
ghost use Rattle.rlock.specs.Known.{newcomer};
ghost use Rattle.rstate.specs.Histories.{Beginning};
ghost use Rattle.rguard.specs.Scribes.{IsScribeOf};
ghost use Rattle.rguard.specs.Seats.{IsOf, IsIdle};

use crate::counted::CountedGate;
use crate::room::Rooms;
use crate::scribe::Scribe;
use crate::section::Seat;
use rlock::Gate;
use rmodel::Machine;
use rpost::Posts;
use rstate::State;
use rvalue::Editable;
use std::alloc::{AllocError, Global};

/// A gate over the locked state of a machine at which nothing was done, with a value for each resource, and its seats, numbered
/// from 0 in order. No seat has seen or made anything.
///
/// # Errors
///
/// Out of memory. Machine and values are dropped.
pub fn open<T: Editable, M: Machine>(
    alloc: Global,
    machine: M,
    values: Vec<T>,
    seats: u8,
) -> Result<(CountedGate<State<T, M>, T>, Vec<Seat<T, M>>), AllocError>
    requires claims { (M.state machine).claims ≡ [] }
    requires issued { (M.state machine).issued ≡ 0 }
    requires values { length values.items ≡ (M.state machine).groups.q }
    requires seats { seats ≡ (M.state machine).seats }
    requires cap { seats ≤ (M.state machine).cap }
    ensures count { IfOk result (λ r. (r.0.passes ≡ seats) × (length r.1.items ≡ seats)) }
    ensures seats { IfOk result (λ r. All (λ seat. IsOf r.0 seat × IsIdle seat) r.1.items) }
    ensures each { IfOk result (λ r. (k : ℕ) → k < seats → slice_get r.1.items k ≡ Some (let began : Beginning T = record { groups = (M.state machine).groups; seats = (M.state machine).seats; cap = (M.state machine).cap; values = values.items; watched = M.watched machine } in
        newcomer r.0.gate k began (record { beginning = began; entries = []; taken = replicate (M.state machine).seats nothing }))) }
{
    let _ = machine.seats();
    let state = State::new(alloc, machine, values)?;
    let posts = Posts::new(alloc, seats)?;
    let rooms = Rooms::new(alloc, seats)?;
    match Gate::new(alloc, state, seats) {
        Ok((gate, all)) => {
            let gate = CountedGate::new(gate, seats, posts, rooms);
            Ok((gate, all))
        }
        Err(e) => Err(e),
    }
}

/// A new gate, its seats, and its scribe.
pub type FedOpening<T, M> = (CountedGate<State<T, M>, T>, Vec<Seat<T, M>>, Scribe<T, M>);

/// The same with a scribe, which has seen nothing: its pass has the number after those of the seats.
///
/// # Errors
///
/// Out of memory. Machine and values are dropped.
pub fn open_fed<T: Editable, M: Machine>(
    alloc: Global,
    machine: M,
    values: Vec<T>,
    seats: u8,
) -> Result<FedOpening<T, M>, AllocError>
    requires claims { (M.state machine).claims ≡ [] }
    requires issued { (M.state machine).issued ≡ 0 }
    requires values { length values.items ≡ (M.state machine).groups.q }
    requires seats { seats ≡ (M.state machine).seats }
    requires cap { seats ≤ (M.state machine).cap }
    ensures count { IfOk result (λ r. (r.0.seats ≡ seats) × (length r.1.items ≡ seats)) }
    ensures seats { IfOk result (λ r. All (λ seat. IsOf r.0 seat × IsIdle seat) r.1.items) }
    ensures each { IfOk result (λ r. (k : ℕ) → k < seats → slice_get r.1.items k ≡ Some (let began : Beginning T = record { groups = (M.state machine).groups; seats = (M.state machine).seats; cap = (M.state machine).cap; values = values.items; watched = M.watched machine } in
        newcomer r.0.gate k began (record { beginning = began; entries = []; taken = replicate (M.state machine).seats nothing }))) }
    ensures scribe { IfOk result (λ r. IsScribeOf r.0 r.2) }
    ensures its { IfOk result (λ r. r.2 ≡ (let began : Beginning T = record { groups = (M.state machine).groups; seats = (M.state machine).seats; cap = (M.state machine).cap; values = values.items; watched = M.watched machine } in
        newcomer r.0.gate seats began (record { beginning = began; entries = []; taken = replicate (M.state machine).seats nothing }))) }
{
    let _ = machine.seats();
    let state = State::new(alloc, machine, values)?;
    let posts = Posts::new(alloc, seats)?;
    let rooms = Rooms::new(alloc, seats)?;
    match Gate::new(alloc, state, seats + 1) {
        Ok((gate, mut all)) => {
            let scribe = all.pop().unwrap();
            let gate = CountedGate::new(gate, seats, posts, rooms);
            Ok((gate, all, scribe))
        }
        Err(e) => Err(e),
    }
}
