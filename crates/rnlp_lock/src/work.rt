//! Sections under way: the values that a closure is lent.
ghost use Rattle.std.specs.Prelude.{◌≡◌, true, false, ◌||◌, ◌++◌, ◌∷◌, [], IsTrue, IfOk, IfErr, OnErr, OnOk};
ghost use Rattle.std.specs.FinSet.{contains};
ghost use Rattle.rvalue.specs.declared.act.Act.TheVariants.{Edited};
ghost use Rattle.rguard.specs.Guards.{HasValue};
ghost use Rattle.rnlp_lock.specs.Causes.{StopsEdit};
ghost use Rattle.rnlp_lock.specs.Works.{guard_of};

use crate::law::Law;
use crate::lock::Lock;
use crate::stop::Stop;
use rguard::{Editing, Guarding, SectionGuard};
use rplain::Plain;
use rset::{RESOURCES, ResourceSet};
use std::alloc::{AllocError, Global};
use std::marker::Model;

/// A section under way, under a guard of this kind.
pub struct Work<'l, T: Law, K: Guarding> {
    pub(crate) guard: SectionGuard<'l, T, Plain, K>,
    pub(crate) lock: &'l Lock<T>,
    pub(crate) reads: ResourceSet,
    pub(crate) writes: ResourceSet,
    pub(crate) alloc: Global,
}

impl<'l, T: Law, K: Guarding> Model for Work<'l, T, K> {
    ghost use Rattle.rnlp_lock.specs.Works.{WorkFields, IsWork};
    ghost use Rattle.rnlp_lock.specs.Laws.{HoldsOf};
    ghost use Rattle.std.specs.Prelude.{◌≡◌};
    ghost use Rattle.std.specs.Coded.{codes};
    ghost use Rattle.rclaim.specs.Codes.{set_code};

    ghost Value = { WorkFields T T.Edit };

    ghost coded = { Prim.hlevel (codes, set_code) };

    ghost view = { λ a. record { place = record { lock = a.lock.now; reads = a.reads; writes = a.writes; pass = a.guard.seat }; acts = a.guard.acts } };

    ghost invariant = { λ a. (a.guard.site ≡ a.lock.now.site) × IsWork T.allows (HoldsOf T.holds) (record { place = record { lock = a.lock.now; reads = a.reads; writes = a.writes; pass = a.guard.seat }; acts = a.guard.acts }) };
}

/// A section that reads.
pub type Reading<'l, T> = Work<'l, T, rguard::Reading>;

/// A section of an upgrade that has not risen: it reads.
pub type Rising<'l, T> = Work<'l, T, rguard::Rising<T>>;

/// A section that writes.
pub type Writing<'l, T> = Work<'l, T, rguard::Writing>;

impl<'l, T: Law, K: Guarding> Work<'l, T, K> {
    /// Whether the section may read this resource.
    pub fn has(&self, place: u8) -> bool
        ensures { IsTrue result → (contains self.now.place.reads place || contains self.now.place.writes place) ≡ true }
    {
        u16::from(place) < RESOURCES && (self.reads.has(place) || self.writes.has(place))
    }

    /// The value of a resource that the section reads or writes.
    pub fn get(&self, place: u8) -> &T
        requires { (contains self.now.place.reads place || contains self.now.place.writes place) ≡ true }
        ensures { HasValue T.after (guard_of self.now) place result.now }
    {
        self.guard.get(place)
    }
}

impl<'l, T: Law, K: Editing> Work<'l, T, K> {
    /// Edits a resource, which has to take it. The first edit of a resource copies its value.
    ///
    /// # Errors
    ///
    /// The section does not write it, and is as it was; the value does not take the edit, which the section then has as an act that was not taken; or out of memory, and
    /// the section is as it was.
    pub fn make(&mut self, place: u8, edit: T::Edit) -> Result<(), Stop>
        ensures place { self.new.place ≡ self.old.place }
        ensures ok { OnOk result (self.new.acts ≡ self.old.acts ++ Edited place edit true ∷ []) }
        ensures taken { OnOk result ((value : T) × HasValue T.after (guard_of self.old) place value × (T.taken value edit ≡ true)) }
        ensures cause { IfErr result (StopsEdit (contains self.old.place.writes place ≡ true) ((value : T) × HasValue T.after (guard_of self.old) place value × (T.taken value edit ≡ false)) self.old self.new (record self.old { acts = self.old.acts ++ Edited place edit false ∷ [] })) }
    {
        // For the proof: no resource above the limit is in a set.
        let _ = self.writes.len();
        if u16::from(place) >= RESOURCES {
            return Err(Stop::NotHeld);
        }
        if !self.writes.has(place) {
            return Err(Stop::NotHeld);
        }
        match self.guard.edit(self.alloc, place, edit) {
            Ok(true) => Ok(()),
            Ok(false) => Err(Stop::Untaken),
            Err(_) => Err(Stop::NoMemory),
        }
    }

    /// Edits a resource that the section writes, and answers whether the value took it.
    ///
    /// # Errors
    ///
    /// Out of memory. The section is then as it was.
    pub fn edit(&mut self, place: u8, edit: T::Edit) -> Result<bool, AllocError>
        requires { contains self.old.place.writes place ≡ true }
        ensures place { self.new.place ≡ self.old.place }
        ensures act { IfOk result (λ done. self.new.acts ≡ self.old.acts ++ Edited place edit done ∷ []) }
        ensures done { IfOk result (λ done. (value : T) × HasValue T.after (guard_of self.old) place value × (done ≡ T.taken value edit)) }
        ensures err { OnErr result (self.new ≡ self.old) }
    {
        self.guard.edit(self.alloc, place, edit)
    }
}
