//! What is left of a closed gate.
ghost use Rattle.std.specs.Prelude.{◌≡◌, ℕ, ◌<◌, All, Any, map};
ghost use Rattle.std.specs.Arc.{arc_value};
ghost use Rattle.rguard.specs.Scribes.{IsScribeOf};
ghost use Rattle.rguard.specs.Seats.{IsOf, IsIdle};
ghost use Rattle.rguard.specs.Closing.{IsClosedBy, IsToldTo};

use crate::counted::CountedGate;
use crate::scribe::Scribe;
use crate::section::Seat;
use rmodel::Machine;
use rstate::State;
use rvalue::{Editable, History};
use std::alloc::Global;
use std::marker::Model;
use std::snapshot::Snapshot;
use std::sync::Arc;

/// Proof that a gate over the locked state was closed and had kept these entries. Only this closing makes a receipt, and it
/// cannot be copied.
///
/// Contracts see it as the list of the entries.
#[derive(Drop)]
pub struct Receipt<E> {
    list: Snapshot<History<E>>,
}

impl<E> Model for Receipt<E> {
    ghost use Rattle.std.specs.Prelude.{List};
    ghost use Rattle.std.specs.Coded.{coded_list};
    ghost use Rattle.rvalue.specs.Entries.{EntryFields, entry_code};

    ghost Value = { List (EntryFields E) };

    ghost coded = { coded_list (entry_code E.code) };

    ghost view = { λ a. a.list.value.entries };
}

/// What a closed gate leaves: its history, a share of the value of each resource, and the receipt.
pub type Closed<T> = (
    History<<T as Editable>::Edit>,
    Vec<Arc<T, Global>>,
    Receipt<<T as Editable>::Edit>,
);

/// Closes the gate with all of its seats, all of them idle, and gives its machine too. Takes no memory.
///
/// The history is lawful from the beginning, begins with what each seat has seen, and has for each seat just the entries that it
/// has made. The values are those that the history makes. Watchers of the machine have been given just the steps of the history.
pub fn close_whole<T: Editable, M: Machine>(
    gate: CountedGate<State<T, M>, T>,
    seats: Vec<Seat<T, M>>,
) -> (Closed<T>, M)
    requires of { All (λ seat. IsOf gate seat) seats.items }
    requires idle { All (λ seat. IsIdle seat) seats.items }
    requires all { (n : ℕ) → n < gate.passes → Any (λ seat. seat.number ≡ n) seats.items }
    ensures seats { All (λ seat. IsClosedBy T.after T.taken T.number result.0.0.entries (map arc_value result.0.1.items) seat) seats.items }
    ensures receipt { result.0.2 ≡ result.0.0.entries }
    ensures told { All (λ seat. IsToldTo (M.watched result.1) result.0.0.entries seat) seats.items }
{
    let gate = gate.into_gate();
    let state = gate.close(seats);
    let _ = state.history();
    let (history, values, machine) = state.into_whole();
    let list = Snapshot::of(&history);
    ((history, values, Receipt { list }), machine)
}

/// Closes the gate with all of its seats, all of them idle. Takes no memory.
///
/// The history is lawful from the beginning, begins with what each seat has seen, and has for each seat just the entries that it
/// has made. The values are those that the history makes.
pub fn close<T: Editable, M: Machine>(
    gate: CountedGate<State<T, M>, T>,
    seats: Vec<Seat<T, M>>,
) -> Closed<T>
    requires of { All (λ seat. IsOf gate seat) seats.items }
    requires idle { All (λ seat. IsIdle seat) seats.items }
    requires all { (n : ℕ) → n < gate.passes → Any (λ seat. seat.number ≡ n) seats.items }
    ensures seats { All (λ seat. IsClosedBy T.after T.taken T.number result.0.entries (map arc_value result.1.items) seat) seats.items }
    ensures receipt { result.2 ≡ result.0.entries }
{
    let (closed, _) = close_whole(gate, seats);
    closed
}

/// Closes the gate with all of its seats, all of them idle, and its scribe. Takes no memory.
///
/// The same holds as after `close`, and the history begins with what the scribe has seen.
pub fn close_fed<T: Editable, M: Machine>(
    gate: CountedGate<State<T, M>, T>,
    seats: Vec<Seat<T, M>>,
    scribe: Scribe<T, M>,
) -> Closed<T>
    requires of { All (λ seat. IsOf gate seat) seats.items }
    requires idle { All (λ seat. IsIdle seat) seats.items }
    requires all { (n : ℕ) → n < gate.seats → Any (λ seat. seat.number ≡ n) seats.items }
    requires scribe { IsScribeOf gate scribe }
    ensures seats { All (λ seat. IsClosedBy T.after T.taken T.number result.0.entries (map arc_value result.1.items) seat) seats.items }
    ensures scribe { IsClosedBy T.after T.taken T.number result.0.entries (map arc_value result.1.items) scribe }
    ensures receipt { result.2 ≡ result.0.entries }
{
    let gate = gate.into_gate();
    let state = gate.close_and(seats, scribe);
    let _ = state.history();
    let (history, values) = state.into_parts();
    let kept = Snapshot::of(&history);
    (history, values, Receipt { list: kept })
}
