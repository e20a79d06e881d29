//! The guard of a read.
ghost use Rattle.std.specs.Prelude.{◌∷◌, []};
ghost use Rattle.rclaim.specs.declared.event.Event.TheVariants.{Finish};
ghost use Rattle.rguard.specs.Seats.{Goes, IsOneTurn, IsIdle};

use crate::kinds::Reading;
use crate::section::Seat;
use crate::section_guard::SectionGuard;
use rmodel::Machine;
use rvalue::Editable;
use std::sync::Wait;

/// The guard of a read. It must be spent.
pub type ReadGuard<'a, T, M> = SectionGuard<'a, T, M, Reading>;

impl<'a, T: Editable, M: Machine> SectionGuard<'a, T, M, Reading> {
    /// Ends the section: its acts are recorded, and what was lent to it goes home. Takes no memory.
    pub fn finish<R: Wait>(self, rt: &R) -> Seat<T, M>
        ensures goes { Goes self.entry.seat (record { event = Finish self.entry.seat.number; acts = self.entry.acts } ∷ []) result }
        ensures turn { IsOneTurn self.entry.seat (record { event = Finish self.entry.seat.number; acts = self.entry.acts } ∷ []) result }
        ensures idle { IsIdle result }
    {
        let SectionGuard { section, kind: _ } = self;
        section.end(rt)
    }
}
