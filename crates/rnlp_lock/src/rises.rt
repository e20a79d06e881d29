//! Sections that read first and may rise to write.
ghost use Rattle.std.specs.Prelude.{◌≡◌, ◌⊎◌, [], IfOk, IfErr, OnErr, Ok, Err, Result, Some, List};
ghost use Rattle.std.specs.Fn.{FnOnceTakesAt, FnOnceReturnsAt};
ghost use Rattle.rset.specs.Sets.{Set};
ghost use Rattle.rvalue.specs.declared.act.Act.{Act};
ghost use Rattle.rnlp_lock.specs.Causes.{StopsRead};
ghost use Rattle.rnlp_lock.specs.Seats.{SeatFields, who, who_of};
ghost use Rattle.rnlp_lock.specs.Upgrades.{FnOnceTakesWith, FnOnceReturnsWith, Rose, UpgradeBegins, UpgradeEnds, as_risen, upgrade_of};
ghost use Rattle.rnlp_lock.specs.Works.{WorkFields, Began, Ended};
ghost use Rattle.rnlp_lock.specs.declared.stop.Stop.{Stop};

use crate::asking::to_upgrade;
use crate::law::Law;
use crate::seat::SeatOver;
use crate::sits::Sits;
use crate::stop::Stop;
use crate::work::{Rising, Work, Writing};
use core::mem;
use rguard::Guard;
use rplain::Plain;
use rset::ResourceSet;
use rstate::State;
use std::sync::Wait;

/// A seat that also makes sections which read first, and rise to write if what they have read asks for it.
///
/// It has no supertrait [`Sits`](crate::Sits): a call at a program's own value type would then reach a limit of the prover.
pub trait Rises: Sized {
    /// The value of a resource.
    type Value;

    /// A change of it.
    type Edit;

    /// A section under way that reads and may rise.
    type Rising;

    /// One that has risen, and writes.
    type Writing;

    /// The seat, as contracts see it.
    ghost seat: { Self → SeatFields Self.Value Self.Edit };

    /// What the law allows a section to do.
    ghost allows: { List (Act Self.Edit) → Type 0 };

    /// Such a section, as contracts see it.
    ghost rising: { Self.Rising → WorkFields Self.Value Self.Edit };

    /// One that has risen, as contracts see it.
    ghost writing: { Self.Writing → WorkFields Self.Value Self.Edit };

    /// Asks to read these and perhaps to write them later, and waits until it may read.
    ///
    /// # Errors
    ///
    /// The set is empty or has members that the lock has not; it is not declared; or out of memory. The seat comes back then.
    fn begin_upgrade<R: Wait>(self, rt: &R, set: ResourceSet) -> Result<Self::Rising, (Self, Stop)>
        ensures { UpgradeBegins Self.rising Self.seat set (Self.seat self) result };

    /// Ends a section that has done nothing but read, and has not risen.
    fn end_upgrade<R: Wait>(rt: &R, work: Self::Rising) -> Self
        requires { (Self.rising work).acts ≡ [] }
        ensures { Ended [] (Self.rising work) (Self.seat result) };

    /// A section that a seat has begun rises, and waits until it may write what it could read.
    fn rise<R: Wait>(rt: &R, work: Self::Rising) -> Self::Writing
        requires { (set : Set) × (own : SeatFields Self.Value Self.Edit) × Began (upgrade_of set) own (Self.rising work) }
        ensures { Rose (Self.rising work) (Self.writing result) };

    /// Ends a section that has risen: its acts are recorded.
    ///
    /// # Errors
    ///
    /// Out of memory. The section is then as it was.
    fn end_risen<R: Wait>(rt: &R, work: Self::Writing) -> Result<Self, Self::Writing>
        requires { Self.allows (Self.writing work).acts }
        ensures ok { IfOk result (λ later. Ended (Self.writing work).acts (Self.writing work) (Self.seat later)) }
        ensures err { IfErr result (λ same. Self.writing same ≡ Self.writing work) };

    /// Ends a section that has risen without its acts: each value is as it was.
    fn discard_risen<R: Wait>(rt: &R, work: Self::Writing) -> Self
        ensures { Ended [] (Self.writing work) (Self.seat result) };

    /// Ends a section that has risen, by what its closure answered: with its acts, or without.
    final fn conclude_risen<R: Wait, A: Drop>(
        rt: &R,
        work: Self::Writing,
        outcome: Result<A, Stop>,
    ) -> (Self, Result<Option<A>, Stop>)
        requires { IfOk outcome (λ answer. Self.allows (Self.writing work).acts) }
        ensures who { who (Self.seat result.0) ≡ who_of (Self.writing work).place.lock (Self.writing work).place.pass }
        ensures ok { IfOk result.1 (λ answer. (as_risen outcome ≡ Ok answer) × Ended (Self.writing work).acts (Self.writing work) (Self.seat result.0)) }
        ensures err { OnErr result.1 (Ended [] (Self.writing work) (Self.seat result.0)) }
        ensures cause { IfErr result.1 (λ stop. (stop ≡ Stop.NoMemory) ⊎ (outcome ≡ Err stop)) }
    {
        match outcome {
            Ok(answer) => match Self::end_risen(rt, work) {
                Ok(seat) => (seat, Ok(Some(answer))),
                Err(work) => (Self::discard_risen(rt, work), Err(Stop::NoMemory)),
            },
            Err(stop) => (Self::discard_risen(rt, work), Err(stop)),
        }
    }

    /// `upgrade`, for a seat that is passed on.
    final fn through_upgrade<
        R: Wait,
        B: Drop,
        A: Drop,
        L: FnOnce(&Self::Rising) -> Option<B>,
        F: FnOnce(&mut Self::Writing, B) -> Result<A, Stop>,
    >(self, rt: &R, set: ResourceSet, look: L, then: F) -> (Self, Result<Option<A>, Stop>)
        requires looks { (work : Self.Rising) → Began (upgrade_of set) (Self.seat self) (Self.rising work) → FnOnceTakesAt L.FnOnce look work }
        requires takes { (work : Self.Rising) (seen : B) (risen : Self.Writing) → Began (upgrade_of set) (Self.seat self) (Self.rising work) → FnOnceReturnsAt L.FnOnce look work (Some seen) → Rose (Self.rising work) (Self.writing risen) → FnOnceTakesWith F.FnOnce then risen seen }
        requires stays { (risen : Self.Writing) (seen : B) (answer : Result A Stop) (later : Self.Writing) → FnOnceReturnsWith F.FnOnce then risen seen answer later → (Self.writing later).place ≡ (Self.writing risen).place }
        requires allowed { (work : Self.Rising) (seen : B) (risen : Self.Writing) (answer : A) (later : Self.Writing) → Began (upgrade_of set) (Self.seat self) (Self.rising work) → FnOnceReturnsAt L.FnOnce look work (Some seen) → Rose (Self.rising work) (Self.writing risen) → FnOnceReturnsWith F.FnOnce then risen seen (Ok answer) later → Self.allows (Self.writing later).acts }
        ensures who { who (Self.seat result.0) ≡ who (Self.seat self) }
        ensures ends { UpgradeEnds Self.rising Self.writing (λ work seen. FnOnceReturnsAt L.FnOnce look work seen) (λ begun seen answer later. FnOnceReturnsWith F.FnOnce then begun seen answer later) (StopsRead (Self.seat self).lock.groups set (upgrade_of set)) (upgrade_of set) (Self.seat self) (Self.seat result.0) result.1 }
    {
        match self.begin_upgrade(rt, set) {
            Ok(work) => match look(&work) {
                None => (Self::end_upgrade(rt, work), Ok(None)),
                Some(seen) => {
                    let mut work = Self::rise(rt, work);
                    let outcome = then(&mut work, seen);
                    Self::conclude_risen(rt, work, outcome)
                }
            },
            Err((seat, stop)) => (seat, Err(stop)),
        }
    }

    /// One section that reads these, and rises to write them if the first closure answers something: the second is then run with that, and the section is made as
    /// a whole or not at all. Where the first answers `None`, the section ends without a rise.
    ///
    /// # Errors
    ///
    /// What the second closure answers; the set is empty or has members that the lock has not; it is not declared; or out of memory. Nothing was made then.
    final fn upgrade<
        R: Wait,
        B: Drop,
        A: Drop,
        L: FnOnce(&Self::Rising) -> Option<B>,
        F: FnOnce(&mut Self::Writing, B) -> Result<A, Stop>,
    >(&mut self, rt: &R, set: ResourceSet, look: L, then: F) -> Result<Option<A>, Stop>
        requires looks { (work : Self.Rising) → Began (upgrade_of set) (Self.seat self.old) (Self.rising work) → FnOnceTakesAt L.FnOnce look work }
        requires takes { (work : Self.Rising) (seen : B) (risen : Self.Writing) → Began (upgrade_of set) (Self.seat self.old) (Self.rising work) → FnOnceReturnsAt L.FnOnce look work (Some seen) → Rose (Self.rising work) (Self.writing risen) → FnOnceTakesWith F.FnOnce then risen seen }
        requires stays { (risen : Self.Writing) (seen : B) (answer : Result A Stop) (later : Self.Writing) → FnOnceReturnsWith F.FnOnce then risen seen answer later → (Self.writing later).place ≡ (Self.writing risen).place }
        requires allowed { (work : Self.Rising) (seen : B) (risen : Self.Writing) (answer : A) (later : Self.Writing) → Began (upgrade_of set) (Self.seat self.old) (Self.rising work) → FnOnceReturnsAt L.FnOnce look work (Some seen) → Rose (Self.rising work) (Self.writing risen) → FnOnceReturnsWith F.FnOnce then risen seen (Ok answer) later → Self.allows (Self.writing later).acts }
        ensures who { who (Self.seat self.new) ≡ who (Self.seat self.old) }
        ensures ends { UpgradeEnds Self.rising Self.writing (λ work seen. FnOnceReturnsAt L.FnOnce look work seen) (λ begun seen answer later. FnOnceReturnsWith F.FnOnce then begun seen answer later) (StopsRead (Self.seat self.old).lock.groups set (upgrade_of set)) (upgrade_of set) (Self.seat self.old) (Self.seat self.new) result }
    {
        mem::replace_with(
            self,
            (look, then),
            |own: Self, halves: (L, F)| -> (Self, Result<Option<A>, Stop>)
                requires { ((work : Self.Rising) → Began (upgrade_of set) (Self.seat own) (Self.rising work) → FnOnceTakesAt L.FnOnce halves.0 work)
                    × ((work : Self.Rising) (seen : B) (risen : Self.Writing) → Began (upgrade_of set) (Self.seat own) (Self.rising work) → FnOnceReturnsAt L.FnOnce halves.0 work (Some seen) → Rose (Self.rising work) (Self.writing risen) → FnOnceTakesWith F.FnOnce halves.1 risen seen)
                    × ((risen : Self.Writing) (seen : B) (answer : Result A Stop) (later : Self.Writing) → FnOnceReturnsWith F.FnOnce halves.1 risen seen answer later → (Self.writing later).place ≡ (Self.writing risen).place)
                    × ((work : Self.Rising) (seen : B) (risen : Self.Writing) (answer : A) (later : Self.Writing) → Began (upgrade_of set) (Self.seat own) (Self.rising work) → FnOnceReturnsAt L.FnOnce halves.0 work (Some seen) → Rose (Self.rising work) (Self.writing risen) → FnOnceReturnsWith F.FnOnce halves.1 risen seen (Ok answer) later → Self.allows (Self.writing later).acts) }
                ensures who { who (Self.seat result.0) ≡ who (Self.seat own) }
                ensures ends { UpgradeEnds Self.rising Self.writing (λ work seen. FnOnceReturnsAt L.FnOnce halves.0 work seen) (λ begun seen answer later. FnOnceReturnsWith F.FnOnce halves.1 begun seen answer later) (StopsRead (Self.seat own).lock.groups set (upgrade_of set)) (upgrade_of set) (Self.seat own) (Self.seat result.0) result.1 }
            {
                let (look, then) = halves;
                own.through_upgrade(rt, set, look, then)
            },
        )
    }
}

impl<'l, T: Law> Rises for SeatOver<'l, State<T, Plain>, T> {
    ghost use Rattle.rnlp_lock.specs.Works.{WorkFields};

    type Value = T;

    type Edit = T::Edit;

    type Rising = Rising<'l, T>;

    type Writing = Writing<'l, T>;

    ghost seat = { λ seat. seat };

    ghost allows = { T.allows };

    ghost rising = { λ work. work };

    ghost writing = { λ work. work };

    fn begin_upgrade<R: Wait>(
        self,
        rt: &R,
        set: ResourceSet,
    ) -> Result<Rising<'l, T>, (Self, Stop)> {
        let SeatOver { lock, pass, alloc } = self;
        match to_upgrade(&lock.groups, lock.all, set) {
            Ok(request) => match lock.rnlp.acquire(rt, alloc, pass, request) {
                Ok(Guard::Rise(guard)) => {
                    let _ = guard.seat();
                    Ok(Work {
                        guard,
                        lock,
                        reads: request.reads(),
                        writes: request.writes(),
                        alloc,
                    })
                }
                Err((pass, _)) => Err((SeatOver { lock, pass, alloc }, Stop::NoMemory)),
                _ => unreachable!(),
            },
            Err(stop) => Err((SeatOver { lock, pass, alloc }, stop)),
        }
    }

    fn end_upgrade<R: Wait>(rt: &R, work: Rising<'l, T>) -> Self {
        let Work {
            guard,
            lock,
            reads: _,
            writes: _,
            alloc,
        } = work;
        let pass = guard.finish(rt);
        SeatOver { lock, pass, alloc }
    }

    fn rise<R: Wait>(rt: &R, work: Rising<'l, T>) -> Writing<'l, T> {
        let Work {
            guard,
            lock,
            reads,
            writes,
            alloc,
        } = work;
        let guard = guard.rise(rt);
        let _ = guard.seat();
        Work {
            guard,
            lock,
            reads: writes,
            writes: reads,
            alloc,
        }
    }

    fn end_risen<R: Wait>(rt: &R, work: Writing<'l, T>) -> Result<Self, Writing<'l, T>> {
        <Self as Sits>::end_write(rt, work)
    }

    fn discard_risen<R: Wait>(rt: &R, work: Writing<'l, T>) -> Self {
        <Self as Sits>::discard_write(rt, work)
    }
}
