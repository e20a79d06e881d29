//! Sections in one call: what a seat does for a closure.
ghost use Rattle.std.specs.Prelude.{◌≡◌, ◌≢◌, ◌⊎◌, [], IfOk, IfErr, OnErr, Ok, Err, Result, List};
ghost use Rattle.std.specs.FinSet.{empty};
ghost use Rattle.std.specs.Fn.{FnOnceTakesAt, FnOnceReturnsAt, FnOnceTakesAtMut, FnOnceReturnsAtMut};
ghost use Rattle.rvalue.specs.declared.act.Act.{Act};
ghost use Rattle.rguard.specs.Sections.{MadeSection, read_of, write_of};
ghost use Rattle.rguard.specs.Seats.{Goes};
ghost use Rattle.rnlp_lock.specs.Asking.{MayAsk, MayWriteBy, asked};
ghost use Rattle.rnlp_lock.specs.Causes.{CameToNothing, StopsRead, StopsWrite};
ghost use Rattle.rnlp_lock.specs.Seats.{SeatFields, Stayed, who, who_of};
ghost use Rattle.rnlp_lock.specs.Works.{WorkFields, Began, Ended, Made};
ghost use Rattle.rnlp_lock.specs.declared.stop.Stop.{Stop};

use crate::stop::Stop;
use core::mem;
use rclaim::Kind;
use rset::ResourceSet;
use std::sync::Wait;

/// A seat, which makes sections one after another, each in one call: it asks, waits, runs a closure under the guard, and ends the section.
///
/// A closure that answers an `Err` has made nothing: none of its acts is recorded. So a section is made as a whole or not at all.
pub trait Sits: Sized {
    /// The value of a resource.
    type Value;

    /// A change of it.
    type Edit;

    /// A section under way that reads.
    type Reading;

    /// One that writes.
    type Writing;

    /// The seat, as contracts see it.
    ghost seat: { Self → SeatFields Self.Value Self.Edit };

    /// What the law allows a section to do.
    ghost allows: { List (Act Self.Edit) → Type 0 };

    /// A section that reads, as contracts see it.
    ghost reading: { Self.Reading → WorkFields Self.Value Self.Edit };

    /// One that writes.
    ghost writing: { Self.Writing → WorkFields Self.Value Self.Edit };

    /// Asks to read these, and waits for it.
    ///
    /// # Errors
    ///
    /// The set is empty or has members that the lock has not; it is not declared; or out of memory. The seat comes back then.
    fn begin_read<R: Wait>(self, rt: &R, set: ResourceSet) -> Result<Self::Reading, (Self, Stop)>
        ensures ok { IfOk result (λ work. Began (read_of set) (seat self) (reading work)) }
        ensures may { IfOk result (λ work. MayAsk (seat self).lock.groups (read_of set)) }
        ensures err { IfErr result (λ e. Stayed (seat self) (seat e.0)) }
        ensures cause { IfErr result (λ e. StopsRead (seat self).lock.groups set (read_of set) e.1) };

    /// Ends a section that has done nothing but read.
    fn end_read<R: Wait>(rt: &R, work: Self::Reading) -> Self
        requires { (reading work).acts ≡ [] }
        ensures { Ended [] (reading work) (seat result) };

    /// Asks to write some of these and to read the others, and waits for it.
    ///
    /// # Errors
    ///
    /// There is nothing to write, or a set has members that the lock has not; or out of memory. The seat comes back then.
    fn begin_write<R: Wait>(
        self,
        rt: &R,
        kind: Kind,
        reads: ResourceSet,
        writes: ResourceSet,
    ) -> Result<Self::Writing, (Self, Stop)>
        requires { MayWriteBy kind }
        ensures ok { IfOk result (λ work. Began (asked kind reads writes) (seat self) (writing work)) }
        ensures may { IfOk result (λ work. (writes ≢ empty) × MayAsk (seat self).lock.groups (asked kind reads writes)) }
        ensures err { IfErr result (λ e. Stayed (seat self) (seat e.0)) }
        ensures cause { IfErr result (λ e. StopsWrite (seat self).lock.groups reads writes (asked kind reads writes) e.1) };

    /// Ends a section: its acts are recorded.
    ///
    /// # Errors
    ///
    /// Out of memory. The section is then as it was.
    fn end_write<R: Wait>(rt: &R, work: Self::Writing) -> Result<Self, Self::Writing>
        requires { allows (writing work).acts }
        ensures ok { IfOk result (λ later. Ended (writing work).acts (writing work) (seat later)) }
        ensures err { IfErr result (λ same. writing same ≡ writing work) };

    /// Ends a section without its acts: each value is as it was.
    fn discard_write<R: Wait>(rt: &R, work: Self::Writing) -> Self
        ensures { Ended [] (writing work) (seat result) };

    /// `read`, for a seat that is passed on.
    final fn through_read<R: Wait, A, F: FnOnce(&Self::Reading) -> A>(
        self,
        rt: &R,
        set: ResourceSet,
        f: F,
    ) -> (Self, Result<A, Stop>)
        requires { (work : Self.Reading) → Began (read_of set) (seat self) (reading work) → FnOnceTakesAt F.FnOnce f work }
        ensures who { who (seat result.0) ≡ who (seat self) }
        ensures ok { IfOk result.1 (λ answer. Made (read_of set) (λ first last. (work : Self.Reading) × (first ≡ reading work) × FnOnceReturnsAt F.FnOnce f work answer) (seat self) (seat result.0)) }
        ensures may { IfOk result.1 (λ answer. MayAsk (seat self).lock.groups (read_of set)) }
        ensures err { OnErr result.1 (Stayed (seat self) (seat result.0)) }
        ensures cause { IfErr result.1 (StopsRead (seat self).lock.groups set (read_of set)) }
    {
        match self.begin_read(rt, set) {
            Ok(work) => {
                let answer = f(&work);
                (Self::end_read(rt, work), Ok(answer))
            }
            Err((seat, stop)) => (seat, Err(stop)),
        }
    }

    /// Ends a section by what its closure answered: with its acts, or without.
    final fn conclude<R: Wait, A: Drop>(
        rt: &R,
        work: Self::Writing,
        outcome: Result<A, Stop>,
    ) -> (Self, Result<A, Stop>)
        requires { IfOk outcome (λ answer. allows (writing work).acts) }
        ensures who { who (seat result.0) ≡ who_of (writing work).place.lock (writing work).place.pass }
        ensures ok { IfOk result.1 (λ answer. (outcome ≡ Ok answer) × Ended (writing work).acts (writing work) (seat result.0)) }
        ensures err { OnErr result.1 (Ended [] (writing work) (seat result.0)) }
        ensures cause { IfErr result.1 (λ stop. (stop ≡ Stop.NoMemory) ⊎ (outcome ≡ Err stop)) }
    {
        match outcome {
            Ok(answer) => match Self::end_write(rt, work) {
                Ok(seat) => (seat, Ok(answer)),
                Err(work) => (Self::discard_write(rt, work), Err(Stop::NoMemory)),
            },
            Err(stop) => (Self::discard_write(rt, work), Err(stop)),
        }
    }

    /// `write` and `mixed`, for a seat that is passed on.
    final fn through_write<R: Wait, A: Drop, F: FnOnce(&mut Self::Writing) -> Result<A, Stop>>(
        self,
        rt: &R,
        kind: Kind,
        reads: ResourceSet,
        writes: ResourceSet,
        f: F,
    ) -> (Self, Result<A, Stop>)
        requires kind { MayWriteBy kind }
        requires takes { (work : Self.Writing) → Began (asked kind reads writes) (seat self) (writing work) → FnOnceTakesAtMut F.FnOnce f work }
        requires stays { (work : Self.Writing) (answer : Result A Stop) (later : Self.Writing) → FnOnceReturnsAtMut F.FnOnce f work answer later → (writing later).place ≡ (writing work).place }
        requires allowed { (work : Self.Writing) (answer : A) (later : Self.Writing) → Began (asked kind reads writes) (seat self) (writing work) → FnOnceReturnsAtMut F.FnOnce f work (Ok answer) later → allows (writing later).acts }
        ensures who { who (seat result.0) ≡ who (seat self) }
        ensures ok { IfOk result.1 (λ answer. Made (asked kind reads writes) (λ first last. (work : Self.Writing) × (later : Self.Writing) × (first ≡ writing work) × (last ≡ writing later) × FnOnceReturnsAtMut F.FnOnce f work (Ok answer) later) (seat self) (seat result.0)) }
        ensures may { IfOk result.1 (λ answer. (writes ≢ empty) × MayAsk (seat self).lock.groups (asked kind reads writes)) }
        ensures err { IfErr result.1 (CameToNothing (StopsWrite (seat self).lock.groups reads writes (asked kind reads writes)) (λ stop. (work : Self.Writing) × (later : Self.Writing) × Began (asked kind reads writes) (seat self) (writing work) × FnOnceReturnsAtMut F.FnOnce f work (Err stop) later) (Goes (seat self).pass [] (seat result.0).pass) (MadeSection (asked kind reads writes) [] (seat self).pass (seat result.0).pass)) }
    {
        match self.begin_write(rt, kind, reads, writes) {
            Ok(work) => {
                let mut work = work;
                let outcome = f(&mut work);
                Self::conclude(rt, work, outcome)
            }
            Err((seat, stop)) => (seat, Err(stop)),
        }
    }

    /// One section that reads these: the closure sees their values.
    ///
    /// # Errors
    ///
    /// The set is empty or has members that the lock has not; it is not declared; or out of memory. Nothing was read then.
    final fn read<R: Wait, A, F: FnOnce(&Self::Reading) -> A>(
        &mut self,
        rt: &R,
        set: ResourceSet,
        f: F,
    ) -> Result<A, Stop>
        requires { (work : Self.Reading) → Began (read_of set) (seat self.old) (reading work) → FnOnceTakesAt F.FnOnce f work }
        ensures who { who (seat self.new) ≡ who (seat self.old) }
        ensures ok { IfOk result (λ answer. Made (read_of set) (λ first last. (work : Self.Reading) × (first ≡ reading work) × FnOnceReturnsAt F.FnOnce f work answer) (seat self.old) (seat self.new)) }
        ensures may { IfOk result (λ answer. MayAsk (seat self.old).lock.groups (read_of set)) }
        ensures err { OnErr result (Stayed (seat self.old) (seat self.new)) }
        ensures cause { IfErr result (StopsRead (seat self.old).lock.groups set (read_of set)) }
    {
        mem::replace_with(
            self,
            f,
            |own: Self, f: F| -> (Self, Result<A, Stop>)
                requires { (work : Self.Reading) → Began (read_of set) (Self.seat own) (Self.reading work) → FnOnceTakesAt F.FnOnce f work }
                ensures who { who (Self.seat result.0) ≡ who (Self.seat own) }
                ensures ok { IfOk result.1 (λ answer. Made (read_of set) (λ first last. (work : Self.Reading) × (first ≡ Self.reading work) × FnOnceReturnsAt F.FnOnce f work answer) (Self.seat own) (Self.seat result.0)) }
                ensures may { IfOk result.1 (λ answer. MayAsk (Self.seat own).lock.groups (read_of set)) }
                ensures err { OnErr result.1 (Stayed (Self.seat own) (Self.seat result.0)) }
                ensures cause { IfErr result.1 (StopsRead (Self.seat own).lock.groups set (read_of set)) }
            { own.through_read(rt, set, f) },
        )
    }

    /// One section that writes these, as a whole or not at all.
    ///
    /// # Errors
    ///
    /// What the closure answers; the set is empty or has members that the lock has not; or out of memory. Nothing was made then.
    final fn write<R: Wait, A: Drop, F: FnOnce(&mut Self::Writing) -> Result<A, Stop>>(
        &mut self,
        rt: &R,
        set: ResourceSet,
        f: F,
    ) -> Result<A, Stop>
        requires takes { (work : Self.Writing) → Began (write_of set) (seat self.old) (writing work) → FnOnceTakesAtMut F.FnOnce f work }
        requires stays { (work : Self.Writing) (answer : Result A Stop) (later : Self.Writing) → FnOnceReturnsAtMut F.FnOnce f work answer later → (writing later).place ≡ (writing work).place }
        requires allowed { (work : Self.Writing) (answer : A) (later : Self.Writing) → Began (write_of set) (seat self.old) (writing work) → FnOnceReturnsAtMut F.FnOnce f work (Ok answer) later → allows (writing later).acts }
        ensures who { who (seat self.new) ≡ who (seat self.old) }
        ensures ok { IfOk result (λ answer. Made (write_of set) (λ first last. (work : Self.Writing) × (later : Self.Writing) × (first ≡ writing work) × (last ≡ writing later) × FnOnceReturnsAtMut F.FnOnce f work (Ok answer) later) (seat self.old) (seat self.new)) }
        ensures may { IfOk result (λ answer. (set ≢ empty) × MayAsk (seat self.old).lock.groups (write_of set)) }
        ensures err { IfErr result (CameToNothing (StopsWrite (seat self.old).lock.groups empty set (write_of set)) (λ stop. (work : Self.Writing) × (later : Self.Writing) × Began (write_of set) (seat self.old) (writing work) × FnOnceReturnsAtMut F.FnOnce f work (Err stop) later) (Goes (seat self.old).pass [] (seat self.new).pass) (MadeSection (write_of set) [] (seat self.old).pass (seat self.new).pass)) }
    {
        mem::replace_with(
            self,
            f,
            |own: Self, f: F| -> (Self, Result<A, Stop>)
                requires { ((work : Self.Writing) → Began (write_of set) (Self.seat own) (Self.writing work) → FnOnceTakesAtMut F.FnOnce f work)
                    × ((work : Self.Writing) (answer : Result A Stop) (later : Self.Writing) → FnOnceReturnsAtMut F.FnOnce f work answer later → (Self.writing later).place ≡ (Self.writing work).place)
                    × ((work : Self.Writing) (answer : A) (later : Self.Writing) → Began (write_of set) (Self.seat own) (Self.writing work) → FnOnceReturnsAtMut F.FnOnce f work (Ok answer) later → Self.allows (Self.writing later).acts) }
                ensures who { who (Self.seat result.0) ≡ who (Self.seat own) }
                ensures ok { IfOk result.1 (λ answer. Made (write_of set) (λ first last. (work : Self.Writing) × (later : Self.Writing) × (first ≡ Self.writing work) × (last ≡ Self.writing later) × FnOnceReturnsAtMut F.FnOnce f work (Ok answer) later) (Self.seat own) (Self.seat result.0)) }
                ensures may { IfOk result.1 (λ answer. (set ≢ empty) × MayAsk (Self.seat own).lock.groups (write_of set)) }
                ensures err { IfErr result.1 (CameToNothing (StopsWrite (Self.seat own).lock.groups empty set (write_of set)) (λ stop. (work : Self.Writing) × (later : Self.Writing) × Began (write_of set) (Self.seat own) (Self.writing work) × FnOnceReturnsAtMut F.FnOnce f work (Err stop) later) (Goes (Self.seat own).pass [] (Self.seat result.0).pass) (MadeSection (write_of set) [] (Self.seat own).pass (Self.seat result.0).pass)) }
            { own.through_write(rt, Kind::Write, ResourceSet::empty(), set, f) },
        )
    }

    /// One section that writes some of these and reads the others, as a whole or not at all.
    ///
    /// # Errors
    ///
    /// What the closure answers; there is nothing to write, or a set has members that the lock has not; or out of memory. Nothing was made then.
    final fn mixed<R: Wait, A: Drop, F: FnOnce(&mut Self::Writing) -> Result<A, Stop>>(
        &mut self,
        rt: &R,
        reads: ResourceSet,
        writes: ResourceSet,
        f: F,
    ) -> Result<A, Stop>
        requires takes { (work : Self.Writing) → Began (asked Kind.Mixed reads writes) (seat self.old) (writing work) → FnOnceTakesAtMut F.FnOnce f work }
        requires stays { (work : Self.Writing) (answer : Result A Stop) (later : Self.Writing) → FnOnceReturnsAtMut F.FnOnce f work answer later → (writing later).place ≡ (writing work).place }
        requires allowed { (work : Self.Writing) (answer : A) (later : Self.Writing) → Began (asked Kind.Mixed reads writes) (seat self.old) (writing work) → FnOnceReturnsAtMut F.FnOnce f work (Ok answer) later → allows (writing later).acts }
        ensures who { who (seat self.new) ≡ who (seat self.old) }
        ensures ok { IfOk result (λ answer. Made (asked Kind.Mixed reads writes) (λ first last. (work : Self.Writing) × (later : Self.Writing) × (first ≡ writing work) × (last ≡ writing later) × FnOnceReturnsAtMut F.FnOnce f work (Ok answer) later) (seat self.old) (seat self.new)) }
        ensures may { IfOk result (λ answer. (writes ≢ empty) × MayAsk (seat self.old).lock.groups (asked Kind.Mixed reads writes)) }
        ensures err { IfErr result (CameToNothing (StopsWrite (seat self.old).lock.groups reads writes (asked Kind.Mixed reads writes)) (λ stop. (work : Self.Writing) × (later : Self.Writing) × Began (asked Kind.Mixed reads writes) (seat self.old) (writing work) × FnOnceReturnsAtMut F.FnOnce f work (Err stop) later) (Goes (seat self.old).pass [] (seat self.new).pass) (MadeSection (asked Kind.Mixed reads writes) [] (seat self.old).pass (seat self.new).pass)) }
    {
        mem::replace_with(
            self,
            f,
            |own: Self, f: F| -> (Self, Result<A, Stop>)
                requires { ((work : Self.Writing) → Began (asked Kind.Mixed reads writes) (Self.seat own) (Self.writing work) → FnOnceTakesAtMut F.FnOnce f work)
                    × ((work : Self.Writing) (answer : Result A Stop) (later : Self.Writing) → FnOnceReturnsAtMut F.FnOnce f work answer later → (Self.writing later).place ≡ (Self.writing work).place)
                    × ((work : Self.Writing) (answer : A) (later : Self.Writing) → Began (asked Kind.Mixed reads writes) (Self.seat own) (Self.writing work) → FnOnceReturnsAtMut F.FnOnce f work (Ok answer) later → Self.allows (Self.writing later).acts) }
                ensures who { who (Self.seat result.0) ≡ who (Self.seat own) }
                ensures ok { IfOk result.1 (λ answer. Made (asked Kind.Mixed reads writes) (λ first last. (work : Self.Writing) × (later : Self.Writing) × (first ≡ Self.writing work) × (last ≡ Self.writing later) × FnOnceReturnsAtMut F.FnOnce f work (Ok answer) later) (Self.seat own) (Self.seat result.0)) }
                ensures may { IfOk result.1 (λ answer. (writes ≢ empty) × MayAsk (Self.seat own).lock.groups (asked Kind.Mixed reads writes)) }
                ensures err { IfErr result.1 (CameToNothing (StopsWrite (Self.seat own).lock.groups reads writes (asked Kind.Mixed reads writes)) (λ stop. (work : Self.Writing) × (later : Self.Writing) × Began (asked Kind.Mixed reads writes) (Self.seat own) (Self.writing work) × FnOnceReturnsAtMut F.FnOnce f work (Err stop) later) (Goes (Self.seat own).pass [] (Self.seat result.0).pass) (MadeSection (asked Kind.Mixed reads writes) [] (Self.seat own).pass (Self.seat result.0).pass)) }
            { own.through_write(rt, Kind::Mixed, reads, writes, f) },
        )
    }
}
