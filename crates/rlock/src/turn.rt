//! A turn at a gate: the state, out with the pass that is served.
ghost use Rattle.std.specs.Prelude.{◌≡◌};
ghost use Rattle.std.specs.Borrow.{Lends, sem};
ghost use Rattle.rlock.specs.contracts.turn.Turn.{the_row};
ghost use Rattle.rlock.specs.Known.{with_state};

use crate::board::Place;
use crate::kept::Kept;
use std::marker::Model;

/// A pass while its ticket is served.
pub(crate) struct Holder<S: Kept> {
    pub(crate) place: Place<S>,
    pub(crate) number: u8,
}

impl<S: Kept> Model for Holder<S> {
    ghost use Rattle.std.specs.Prelude.{◌≡◌, ℕ, [], ◌∷◌, None};
    ghost use Rattle.rlock.specs.Views.{known_from, state_out, Held, IsViewOf};
    ghost use Rattle.rlock.specs.declared.view.Mode.TheVariants.{Served};

    ghost Value = { Held S S.Opening S.Entry };

    ghost view = { λ h. record { pass = known_from h.place.table_id h.number h.place.me.0; found = state_out h.place.me.0.mode } };

    ghost invariant = { λ h. (t : ℕ) × (found : S) × IsViewOf (Served t found) (known_from h.place.table_id h.number h.place.me.0) h.place.me.0 × (h.place.me.1 ≡ (0, None) ∷ []) };
}

/// The state, in the hands of one pass. It must be given back by `leave`.
///
/// Contracts see the `pass`, which has seen the list as it was at the entry, the state as `found` at the entry, and the `state`.
pub struct Turn<S: Kept> {
    pub(crate) holder: Holder<S>,
    pub(crate) state: S,
}

impl<S: Kept> Model for Turn<S> {
    ghost use Rattle.rlock.specs.Known.{Taken};

    ghost Value = { Taken S S.Opening S.Entry };

    ghost view = { λ t. record { pass = t.holder.pass; found = t.holder.found; state = t.state } };
}

impl<S: Kept> Turn<S> {
    /// Lends the state. The pass, and what it found, stay as they are.
    pub fn state(&mut self) -> &mut S
        ensures* writes_back { sem 𝓛 (Lends (the_row S.row S.Opening.row S.Entry.row S.Kept) S.row self.entry result (with_state self.old)) }
        ensures value { result.now ≡ self.old.state }
    {
        &mut self.state
    }
}
