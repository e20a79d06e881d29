//! A pass, with which turns are taken at a gate.
ghost use Rattle.std.specs.Prelude.{◌≡◌};
ghost use Rattle.rlock.specs.Known.{Known};
ghost use Rattle.rlock.specs.Steps.{RestsAs};

use crate::board::Place;
use crate::kept::Kept;
use std::marker::Model;

/// A right to take turns at one gate. It cannot be copied.
///
/// Contracts see which gate it belongs to, its `number`, the `opening` of the state behind that gate, the list of entries as the
/// pass has last `seen` it, those of them that are `mine`, the state as the pass left it `last`, and the number of `turns` that
/// the pass has had.
#[derive(Drop)]
pub struct Pass<S: Kept> {
    pub(crate) place: Place<S>,
    pub(crate) number: u8,
}

impl<S: Kept> Model for Pass<S> {
    ghost use Rattle.std.specs.Prelude.{◌≡◌, []};
    ghost use Rattle.rlock.specs.Known.{Known};
    ghost use Rattle.rlock.specs.Views.{known_from, IsViewOf};
    ghost use Rattle.rlock.specs.declared.view.Mode.TheVariants.{Idle};

    ghost Value = { Known S S.Opening S.Entry };

    ghost view = { λ p. known_from p.place.table_id p.number p.place.me.0 };

    ghost invariant = { λ p. IsViewOf Idle (known_from p.place.table_id p.number p.place.me.0) p.place.me.0 × (p.place.me.1 ≡ []) };
}

impl<S: Kept> Pass<S> {
    // The pass of a seat that rests.
    pub(crate) fn of(place: Place<S>, number: u8) -> Pass<S>
        requires { (k : Known S S.Opening S.Entry) × RestsAs place number k }
        ensures { (k : Known S S.Opening S.Entry) → RestsAs place number k → result ≡ k }
    {
        Pass { place, number }
    }

    /// Its number: the passes of a gate are numbered from 0.
    pub fn number(&self) -> u8
        ensures { result ≡ self.now.number }
    {
        self.number
    }
}
