//! What each step on the table changes in the views, and how passes are split and joined.
ghost use Rattle.std.specs.Prelude.{Option, None};
ghost use Rattle.rlock.specs.Steps.{drew, looked, noted, returned, giving, given, joined, spent};

use crate::kept::Kept;
use crate::view::View;
use atomic_table::{Join, Play, Split};
use std::marker::{Brand, PhantomData};

/// A pass draws a ticket.
pub(crate) struct Draw;

impl<S: Kept> Play<Option<S>, View<S, S::Opening, S::Entry>> for Draw {
    ghost then = { drew };
}

/// A pass looks at which ticket is served.
pub(crate) struct Look;

impl<S: Kept> Play<Option<S>, View<S, S::Opening, S::Entry>> for Look {
    ghost then = { looked S.opening S.entries S.number S.stays };
}

/// A state that a call picks.
pub(crate) trait Telling<S> {
    ghost told: { Option S };
}

impl<S> Telling<S> for Brand {
    ghost told = { None };
}

/// A pass announces the state that it leaves, while that is out of its slot.
pub(crate) struct Note<L> {
    telling: PhantomData<L>,
}

impl<S: Kept, L: Telling<S>> Play<Option<S>, View<S, S::Opening, S::Entry>> for Note<L> {
    ghost then = { noted S.entries L.told };
}

/// The state is back in its slot, and the next ticket is served.
pub(crate) struct Return;

impl<S: Kept> Play<Option<S>, View<S, S::Opening, S::Entry>> for Return {
    ghost then = { returned };
}

/// A pass gives out the least number that it has besides its own.
pub(crate) struct GiveOut;

impl<S, O, E> Split<View<S, O, E>> for GiveOut {
    ghost left = { giving };

    ghost right = { given };
}

/// A pass takes in what another knows.
pub(crate) struct TakeIn;

impl<S, O, E> Join<View<S, O, E>> for TakeIn {
    ghost both = { joined };

    ghost spent = { spent };
}
