//! The guard of an upgrade.
ghost use Rattle.std.specs.Prelude.{◌≡◌, true, ◌∷◌, []};
ghost use Rattle.rclaim.specs.declared.event.Event.TheVariants.{Finish, Rise};
ghost use Rattle.rguard.specs.Seats.{Goes, IsOneTurn, IsIdle};
ghost use Rattle.rguard.specs.Guards.{IsReady};

use crate::awaited::Awaited;
use crate::kind::GuardKind;
use crate::kinds::{Rising, Writing};
use crate::pending::Pending;
use crate::section::Seat;
use crate::section_guard::SectionGuard;
use crate::write::WriteGuard;
use rmodel::Machine;
use rvalue::Editable;
use std::sync::Wait;

/// The guard of an upgrade that has not risen. It must be spent.
pub type RiseGuard<'a, T, M> = SectionGuard<'a, T, M, Rising<T>>;

impl<'a, T: Editable, M: Machine> SectionGuard<'a, T, M, Rising<T>> {
    /// Ends the section: its acts are recorded, and what was lent to it goes home. Takes no memory.
    pub fn finish<R: Wait>(self, rt: &R) -> Seat<T, M>
        ensures goes { Goes self.entry.seat (record { event = Finish self.entry.seat.number; acts = self.entry.acts } ∷ []) result }
        ensures turn { IsOneTurn self.entry.seat (record { event = Finish self.entry.seat.number; acts = self.entry.acts } ∷ []) result }
        ensures idle { IsIdle result }
    {
        let SectionGuard { section, kind: _ } = self;
        section.end(rt)
    }

    /// Rises, in one turn: the shows so far are recorded, what was lent goes home, and the seat waits to write what it read.
    /// Takes no memory.
    pub fn begin_rise<R: Wait>(self, rt: &R) -> Pending<'a, T, M>
        ensures site { result.site ≡ self.entry.site }
        ensures kind { result.kind ≡ GuardKind.Write }
        ensures acts { result.acts ≡ [] }
        ensures goes { Goes self.entry.seat (record { event = Rise self.entry.seat.number; acts = self.entry.acts } ∷ []) result.seat }
        ensures turn { IsOneTurn self.entry.seat (record { event = Rise self.entry.seat.number; acts = self.entry.acts } ∷ []) result.seat }
    {
        let SectionGuard { section, kind } = self;
        let Rising { next, alloc } = kind;
        let section = section.rise(rt, next, alloc);
        Pending {
            section,
            awaited: Awaited::Write,
        }
    }

    /// Rises, and waits until nothing of the seat is pending, looking and resting in turn. Takes no memory.
    pub fn rise<R: Wait>(self, rt: &R) -> WriteGuard<'a, T, M>
        ensures site { result.site ≡ self.entry.site }
        ensures acts { result.acts ≡ [] }
        ensures goes { Goes self.entry.seat (record { event = Rise self.entry.seat.number; acts = self.entry.acts } ∷ []) result.seat }
        ensures ready { IsReady result.seat true }
    {
        let SectionGuard { section, kind } = self;
        let Rising { next, alloc } = kind;
        let waiting = section.rise(rt, next, alloc);
        let section = waiting.wait(rt);
        SectionGuard {
            section,
            kind: Writing,
        }
    }
}
