//! What guards of all kinds do.
ghost use Rattle.std.specs.Prelude.{◌≡◌, ◌++◌, ◌∷◌, [], IfOk, OnErr, IfErr};
ghost use Rattle.rclaim.specs.declared.event.Event.TheVariants.{Finish};
ghost use Rattle.rvalue.specs.declared.act.Act.TheVariants.{Edited, Shown};
ghost use Rattle.rguard.specs.Seats.{Goes, IsOneTurn, IsIdle, bare};
ghost use Rattle.rguard.specs.Guards.{HasSeenLawful, HasSeenOwn, Holding, HoldingToWrite, HasValue};

use crate::kinds::{Editing, Guarding};
use crate::section::{Seat, Section};
use rmodel::Machine;
use rvalue::Editable;
use std::alloc::{AllocError, Global};
use std::marker::Model;
use std::sync::Wait;

/// A guard of this kind: a section that its seat is in. It must be spent.
pub struct SectionGuard<'a, T: Editable, M: Machine, K: Guarding> {
    pub(crate) section: Section<'a, T, M>,
    pub(crate) kind: K,
}

impl<'a, T: Editable, M: Machine, K: Guarding> Model for SectionGuard<'a, T, M, K> {
    ghost use Rattle.rguard.specs.Guards.{GuardFields};
    ghost use Rattle.rguard.specs.LentSections.{Holds, guarded};
    ghost use Rattle.std.specs.Coded.{codes};
    ghost use Rattle.rclaim.specs.Codes.{set_code};

    ghost Value = { GuardFields T T.Edit };

    ghost coded = { Prim.hlevel (codes, set_code) };

    ghost view = { λ a. guarded a.section };

    ghost invariant = { λ a. Holds T.after T.taken T.number K.kind a.section };
}

impl<'a, T: Editable, M: Machine, K: Guarding> SectionGuard<'a, T, M, K> {
    /// Lends the seat of the guard, which has no turn. What it has seen is lawful from how the lock began, and its own entries
    /// there are those that it made. Takes no memory.
    pub fn seat(&self) -> &Seat<T, M>
        ensures seat { result.now ≡ self.now.seat }
        ensures lawful { HasSeenLawful T.after T.taken T.number self.now.seat }
        ensures own { HasSeenOwn self.now.seat }
    {
        &self.section.seat
    }

    /// Lends the value of a resource that is held: what the history that the seat has seen makes of it, with the section's own
    /// edits. Takes no memory.
    pub fn get(&self, place: u8) -> &T
        requires { Holding self.now.seat place }
        ensures { HasValue T.after self.now place result.now }
    {
        self.section.get(place)
    }

    /// Shows the value of a resource that is held, and records that as an act.
    ///
    /// # Errors
    ///
    /// Out of memory. The guard is then as it was.
    pub fn show(&mut self, alloc: Global, place: u8) -> Result<u64, AllocError>
        requires { Holding self.old.seat place }
        ensures act { IfOk result (λ number. self.new ≡ record self.old { acts = self.old.acts ++ Shown place number ∷ [] }) }
        ensures number { IfOk result (λ number. (value : T) × HasValue T.after self.old place value × (number ≡ T.number value)) }
        ensures err { OnErr result (self.new ≡ self.old) }
    {
        let _ = alloc;
        self.section.show(place)
    }

    /// Ends the section without its acts: what was lent to it goes home as it was lent. Takes no memory.
    pub fn discard<R: Wait>(self, rt: &R) -> Seat<T, M>
        ensures goes { Goes self.entry.seat (bare (Finish self.entry.seat.number) ∷ []) result }
        ensures turn { IsOneTurn self.entry.seat (bare (Finish self.entry.seat.number) ∷ []) result }
        ensures idle { IsIdle result }
    {
        let SectionGuard { section, kind: _ } = self;
        section.discard(rt)
    }
}

impl<'a, T: Editable, M: Machine, K: Editing> SectionGuard<'a, T, M, K> {
    /// Edits the value of a resource that is held for writing, records that as an act, and answers whether the edit was taken.
    /// The first edit of a resource copies its value.
    ///
    /// # Errors
    ///
    /// Out of memory. The guard is then as it was.
    pub fn edit(&mut self, alloc: Global, place: u8, edit: T::Edit) -> Result<bool, AllocError>
        requires { HoldingToWrite self.old.seat place }
        ensures act { IfOk result (λ done. self.new ≡ record self.old { acts = self.old.acts ++ Edited place edit done ∷ [] }) }
        ensures done { IfOk result (λ done. (value : T) × HasValue T.after self.old place value × (done ≡ T.taken value edit)) }
        ensures err { OnErr result (self.new ≡ self.old) }
    {
        self.section.edit(alloc, place, edit)
    }

    /// Ends the section: its acts are recorded, and what was lent to it goes home, with the edits. The shares of what it has
    /// edited are made first.
    ///
    /// # Errors
    ///
    /// Out of memory. The guard comes back as it was.
    pub fn finish<R: Wait>(
        self,
        rt: &R,
        alloc: Global,
    ) -> Result<Seat<T, M>, (SectionGuard<'a, T, M, K>, AllocError)>
        ensures goes { IfOk result (Goes self.entry.seat (record { event = Finish self.entry.seat.number; acts = self.entry.acts } ∷ [])) }
        ensures turn { IfOk result (IsOneTurn self.entry.seat (record { event = Finish self.entry.seat.number; acts = self.entry.acts } ∷ [])) }
        ensures idle { IfOk result IsIdle }
        ensures err { IfErr result (λ e. e.0 ≡ self.entry) }
    {
        let SectionGuard { mut section, kind } = self;
        match section.make_shares(alloc) {
            Ok(()) => Ok(section.end(rt)),
            Err(e) => Err((SectionGuard { section, kind }, e)),
        }
    }
}
