//! The table of a gate: word 0 is the next ticket, word 1 the ticket that is served, and slot 0 has the state.
use crate::kept::Kept;
use crate::view::View;
use atomic_table::{Seat, Table, TableRule};
use std::alloc::Global;
use std::snapshot::Snapshot;

/// What a gate is made with: the number of passes, and the state.
#[derive(Drop)]
pub struct Setup<S> {
    /// How many passes it hands out.
    pub passes: u64,
    /// The state as it is put behind the gate.
    pub first: Snapshot<S>,
}

/// The rule of the gate, as the table keeps it between any two of its steps.
pub struct Ruled;

impl<S: Kept> TableRule<Option<S>, View<S, S::Opening, S::Entry>, Setup<S>> for Ruled {
    ghost use Rattle.rlock.specs.Rule.{GateHolds};
    ghost use Rattle.rlock.specs.Views.{first_view};

    ghost holds = { λ key. GateHolds S.opening S.entries S.number S.stays key.passes (S.opening key.first.value) };

    ghost first = { λ key. first_view key.passes (S.opening key.first.value) key.first.value };
}

/// The table of a gate: the slot of the state, the two words, and the views.
pub type Board<S> = Table<
    Option<S>,
    View<S, <S as Kept>::Opening, <S as Kept>::Entry>,
    Setup<S>,
    Ruled,
    Global,
>;

/// A seat at that table, with the view that a pass has.
pub type Place<S> = Seat<Option<S>, View<S, <S as Kept>::Opening, <S as Kept>::Entry>>;
