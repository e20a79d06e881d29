//! The end of a runtime.
ghost use Rattle.std.specs.Prelude.{◌≡◌, ℕ, ◌<◌, length, All, IsTrue, slice_index_or};
ghost use Rattle.rguard.specs.Seats.{SeatOf};
ghost use Rattle.rguard.specs.Resting.{Rests, all_with};

use crate::sections::OPENING;
use rguard::{Rnlp, Seat};
use rmodel::Machine;
use rset::ResourceSet;
use rvalue::{Editable, History, Ledger};
use std::alloc::Global;
use std::process::Abort;
use std::sync::Arc;

/// What is left of a runtime.
#[derive(Drop)]
pub struct Left<T: Editable> {
    pub history: History<T::Edit>,
    pub values: Vec<Arc<T, Global>>,
}

// Whether the seats are numbered from 0 in their order.
fn are_in_order<T: Editable, M: Machine>(seats: &[Seat<T, M>]) -> bool
    ensures { IsTrue result → (k : ℕ) (d : SeatOf T T.Edit) → k < length seats.now → (slice_index_or seats.now k d).number ≡ k }
{
    for (k, seat) in seats.iter().enumerate() {
        if usize::from(seat.number()) != k {
            return false;
        }
    }
    true
}

/// Closes the runtime, after checking that all seats are there.
pub fn closed<T: Editable, M: Machine>(
    rt: &impl Abort,
    lock: Rnlp<T, M>,
    group: ResourceSet,
    seats: Vec<Seat<T, M>>,
    count: u8,
) -> Left<T>
    requires rest { All (Rests (all_with group) lock) seats.items }
    requires count { lock.passes ≡ count }
{
    let _ = group.len();
    assert!(rt; seats.len() == usize::from(count));
    assert!(rt; are_in_order(seats.as_slice()));
    let (history, values, _) = lock.close(seats);
    Left { history, values }
}

/// The value of a resource, after checking that it is there.
pub fn value_at<'a, T: Editable>(rt: &impl Abort, left: &'a Left<T>, l: u8) -> &'a T {
    assert!(rt; usize::from(l) < left.values.len());
    &left.values[usize::from(l)]
}

/// The ledger of a resource, after checking that the history makes just it of the opening ledger.
pub fn ledger_of(rt: &impl Abort, left: &Left<Ledger>, l: u8) -> Ledger {
    let opening = Ledger {
        balance: OPENING,
        edits: 0,
    };
    let ledger = left.history.value_of(opening, l);
    assert!(rt; *value_at(rt, left, l) == ledger);
    ledger
}
