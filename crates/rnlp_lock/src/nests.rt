//! Sections that begin with a part of what they are about, and ask for more on their way.
ghost use Rattle.std.specs.Prelude.{◌≡◌, ◌⊎◌, ◌∷◌, ◌++◌, [], true, false, IsTrue, IfOk, IfErr, OnOk, OnErr, Ok, Err, Result, List};
ghost use Rattle.std.specs.Fn.{FnOnceTakesAtMut, FnOnceReturnsAtMut};
ghost use Rattle.std.specs.FinSet.{union};
ghost use Rattle.rclaim.specs.Requests.{is_part};
ghost use Rattle.rclaim.specs.declared.event.Event.TheVariants.{Ask};
ghost use Rattle.rvalue.specs.declared.act.Act.{Act};
ghost use Rattle.rvalue.specs.declared.act.Act.TheVariants.{Edited};
ghost use Rattle.rguard.specs.Guards.{HasValue};
ghost use Rattle.rguard.specs.Seats.{Goes, bare};
ghost use Rattle.rnlp_lock.specs.Asking.{nested_of};
ghost use Rattle.rnlp_lock.specs.Causes.{StopsAsk, StopsEdit};
ghost use Rattle.rnlp_lock.specs.Nested.{NestFields, BeganNest, EndedNest, NestBegins, NestEnds, guard_of_nest, may_edit, may_get};
ghost use Rattle.rnlp_lock.specs.Seats.{SeatFields, who, who_of};
ghost use Rattle.rnlp_lock.specs.declared.stop.Stop.{Stop};

use crate::asking::to_nested;
use crate::law::Law;
use crate::lock::{Lock, Pass};
use crate::seat::SeatOver;
use crate::stop::Stop;
use core::mem;
use rguard::{Guard, NestGuard};
use rplain::Plain;
use rset::{RESOURCES, ResourceSet};
use rstate::State;
use std::alloc::Global;
use std::marker::Model;
use std::snapshot::Snapshot;
use std::sync::Wait;

/// A section under way of a nested request: it reads and writes what it was granted so far, and may ask for more.
pub struct Nesting<'l, T: Law> {
    guard: NestGuard<'l, T, Plain>,
    lock: &'l Lock<T>,
    // Its seat as it was before the section, for the proof.
    start: Snapshot<Pass<T>>,
    // What the request is about.
    reads: ResourceSet,
    writes: ResourceSet,
    first: ResourceSet,
    // What was granted of it.
    granted: ResourceSet,
    alloc: Global,
}

impl<'l, T: Law> Model for Nesting<'l, T> {
    ghost use Rattle.std.specs.Prelude.{◌≡◌};
    ghost use Rattle.std.specs.Coded.{codes};
    ghost use Rattle.rclaim.specs.Codes.{set_code};
    ghost use Rattle.rnlp_lock.specs.Laws.{HoldsOf};
    ghost use Rattle.rnlp_lock.specs.Nested.{NestFields, IsNest, nested_by};

    ghost Value = { NestFields T T.Edit };

    ghost coded = { Prim.hlevel (codes, set_code) };

    ghost view = { λ a. record { place = record { lock = a.lock.now; start = a.start.value; request = nested_by a.reads a.writes a.first }; granted = a.granted; pass = a.guard.seat; acts = a.guard.acts } };

    ghost invariant = { λ a. (a.guard.site ≡ a.lock.now.site) × IsNest T.allows (HoldsOf T.holds) (record { place = record { lock = a.lock.now; start = a.start.value; request = nested_by a.reads a.writes a.first }; granted = a.granted; pass = a.guard.seat; acts = a.guard.acts }) };
}

// Whether a set is not empty and a part of another.
fn is_part(part: ResourceSet, whole: ResourceSet) -> bool
    ensures { result ≡ is_part part whole }
{
    part.len() > 0 && part.within(whole)
}

impl<'l, T: Law> Nesting<'l, T> {
    /// Whether the section may read this resource now.
    pub fn has(&self, place: u8) -> bool
        ensures { IsTrue result → may_get self.now place ≡ true }
    {
        u16::from(place) < RESOURCES
            && self.granted.has(place)
            && (self.reads.has(place) || self.writes.has(place))
    }

    /// The value of a resource that was granted.
    pub fn get(&self, place: u8) -> &T
        requires { may_get self.now place ≡ true }
        ensures { HasValue T.after (guard_of_nest self.now) place result.now }
    {
        self.guard.get(place)
    }

    /// Edits a resource that was granted for writing, which has to take it. The first edit of a resource copies its value.
    ///
    /// # Errors
    ///
    /// The section may not write it now, and is as it was; the value does not take the edit, which the section then has as an act that was not taken; or out of
    /// memory, and the section is as it was.
    pub fn make(&mut self, place: u8, edit: T::Edit) -> Result<(), Stop>
        ensures place { self.new.place ≡ self.old.place }
        ensures same { (self.new.granted ≡ self.old.granted) × (self.new.pass ≡ self.old.pass) }
        ensures ok { OnOk result (self.new.acts ≡ self.old.acts ++ Edited place edit true ∷ []) }
        ensures taken { OnOk result ((value : T) × HasValue T.after (guard_of_nest self.old) place value × (T.taken value edit ≡ true)) }
        ensures cause { IfErr result (StopsEdit (may_edit self.old place ≡ true) ((value : T) × HasValue T.after (guard_of_nest self.old) place value × (T.taken value edit ≡ false)) self.old self.new (record self.old { acts = self.old.acts ++ Edited place edit false ∷ [] })) }
    {
        // For the proof: no resource above the limit is in a set.
        let _ = self.writes.len();
        if u16::from(place) >= RESOURCES {
            return Err(Stop::NotHeld);
        }
        if !self.granted.has(place) {
            return Err(Stop::NotHeld);
        }
        if !self.writes.has(place) {
            return Err(Stop::NotHeld);
        }
        match self.guard.edit(self.alloc, place, edit) {
            Ok(true) => Ok(()),
            Ok(false) => Err(Stop::Untaken),
            Err(_) => Err(Stop::NoMemory),
        }
    }

    /// Asks for a part of what the request is about, and waits for it. What it held it still holds.
    ///
    /// # Errors
    ///
    /// The part is empty, or no part of that; or out of memory. Nothing was asked for then, and it may be asked for again.
    pub fn ask<R: Wait>(&mut self, rt: &R, part: ResourceSet) -> Result<(), Stop>
        ensures place { self.new.place ≡ self.old.place }
        ensures acts { self.new.acts ≡ self.old.acts }
        ensures ok { OnOk result ((self.new.granted ≡ union self.old.granted part) × Goes self.old.pass (bare (Ask self.old.pass.number part) ∷ []) self.new.pass) }
        ensures may { OnOk result (is_part part (union self.old.place.request.reads self.old.place.request.writes) ≡ true) }
        ensures err { OnErr result ((self.new.granted ≡ self.old.granted) × Goes self.old.pass [] self.new.pass) }
        ensures cause { IfErr result (StopsAsk self.old.place.request part) }
    {
        if !is_part(part, self.reads.union(self.writes)) {
            return Err(Stop::NotThere);
        }
        mem::replace_with(
            self,
            part,
            |own: Nesting<'_, T>, part: ResourceSet| -> (Nesting<'_, T>, Result<(), Stop>)
                requires { is_part part (union own.place.request.reads own.place.request.writes) ≡ true }
                ensures place { result.0.place ≡ own.entry.place }
                ensures acts { result.0.acts ≡ own.entry.acts }
                ensures ok { OnOk result.1 ((result.0.granted ≡ union own.entry.granted part) × Goes own.entry.pass (bare (Ask own.entry.pass.number part) ∷ []) result.0.pass) }
                ensures err { OnErr result.1 ((result.0.granted ≡ own.entry.granted) × Goes own.entry.pass [] result.0.pass) }
                ensures cause { IfErr result.1 (λ stop. stop ≡ Stop.NoMemory) }
            { own.through_ask(rt, part) },
        )
    }

    // `ask`, for a section that is passed on.
    fn through_ask<R: Wait>(self, rt: &R, part: ResourceSet) -> (Self, Result<(), Stop>)
        requires { is_part part (union self.place.request.reads self.place.request.writes) ≡ true }
        ensures place { result.0.place ≡ self.entry.place }
        ensures acts { result.0.acts ≡ self.entry.acts }
        ensures ok { OnOk result.1 ((result.0.granted ≡ union self.entry.granted part) × Goes self.entry.pass (bare (Ask self.entry.pass.number part) ∷ []) result.0.pass) }
        ensures err { OnErr result.1 ((result.0.granted ≡ self.entry.granted) × Goes self.entry.pass [] result.0.pass) }
        ensures cause { IfErr result.1 (λ stop. stop ≡ Stop.NoMemory) }
    {
        let Nesting {
            guard,
            lock,
            start,
            reads,
            writes,
            first,
            granted,
            alloc,
        } = self;
        match guard.ask(rt, alloc, part) {
            Ok(guard) => {
                let _ = guard.seat();
                let nest = Nesting {
                    guard,
                    lock,
                    start,
                    reads,
                    writes,
                    first,
                    granted: granted.union(part),
                    alloc,
                };
                (nest, Ok(()))
            }
            Err((guard, _)) => {
                let nest = Nesting {
                    guard,
                    lock,
                    start,
                    reads,
                    writes,
                    first,
                    granted,
                    alloc,
                };
                (nest, Err(Stop::NoMemory))
            }
        }
    }
}

/// A seat that also makes sections which ask for more on their way.
///
/// It has no supertrait [`Sits`](crate::Sits): a call at a program's own value type would then reach a limit of the prover.
pub trait Nests: Sized {
    /// The value of a resource.
    type Value;

    /// A change of it.
    type Edit;

    /// A nested section under way.
    type Nesting;

    /// The seat, as contracts see it.
    ghost seat: { Self → SeatFields Self.Value Self.Edit };

    /// What the law allows a section to do.
    ghost allows: { List (Act Self.Edit) → Type 0 };

    /// Such a section, as contracts see it.
    ghost nesting: { Self.Nesting → NestFields Self.Value Self.Edit };

    /// Asks for the first part of what it is about, and waits for it.
    ///
    /// # Errors
    ///
    /// There is nothing to write, a set has members that the lock has not, or the first part is empty or no part of the others; or out of memory. The seat comes
    /// back then.
    fn begin_nested<R: Wait>(
        self,
        rt: &R,
        reads: ResourceSet,
        writes: ResourceSet,
        first: ResourceSet,
    ) -> Result<Self::Nesting, (Self, Stop)>
        ensures { NestBegins Self.nesting Self.seat reads writes first (Self.seat self) result };

    /// Ends a section: its acts are recorded.
    ///
    /// # Errors
    ///
    /// Out of memory. The section is then as it was.
    fn end_nested<R: Wait>(rt: &R, nest: Self::Nesting) -> Result<Self, Self::Nesting>
        requires { Self.allows (Self.nesting nest).acts }
        ensures ok { IfOk result (λ later. EndedNest (Self.nesting nest).acts (Self.nesting nest) (Self.seat later)) }
        ensures err { IfErr result (λ same. Self.nesting same ≡ Self.nesting nest) };

    /// Ends a section without its acts: each value is as it was.
    fn discard_nested<R: Wait>(rt: &R, nest: Self::Nesting) -> Self
        ensures { EndedNest [] (Self.nesting nest) (Self.seat result) };

    /// Ends a section by what its closure answered: with its acts, or without.
    final fn conclude_nested<R: Wait, A: Drop>(
        rt: &R,
        nest: Self::Nesting,
        outcome: Result<A, Stop>,
    ) -> (Self, Result<A, Stop>)
        requires { IfOk outcome (λ answer. Self.allows (Self.nesting nest).acts) }
        ensures who { who (Self.seat result.0) ≡ who_of (Self.nesting nest).place.lock (Self.nesting nest).place.start }
        ensures ok { IfOk result.1 (λ answer. (outcome ≡ Ok answer) × EndedNest (Self.nesting nest).acts (Self.nesting nest) (Self.seat result.0)) }
        ensures err { OnErr result.1 (EndedNest [] (Self.nesting nest) (Self.seat result.0)) }
        ensures cause { IfErr result.1 (λ stop. (stop ≡ Stop.NoMemory) ⊎ (outcome ≡ Err stop)) }
    {
        match outcome {
            Ok(answer) => match Self::end_nested(rt, nest) {
                Ok(seat) => (seat, Ok(answer)),
                Err(nest) => (Self::discard_nested(rt, nest), Err(Stop::NoMemory)),
            },
            Err(stop) => (Self::discard_nested(rt, nest), Err(stop)),
        }
    }

    /// `nested`, for a seat that is passed on.
    final fn through_nested<R: Wait, A: Drop, F: FnOnce(&mut Self::Nesting) -> Result<A, Stop>>(
        self,
        rt: &R,
        reads: ResourceSet,
        writes: ResourceSet,
        first: ResourceSet,
        f: F,
    ) -> (Self, Result<A, Stop>)
        requires takes { (nest : Self.Nesting) → BeganNest (nested_of reads writes first) (Self.seat self) (Self.nesting nest) → FnOnceTakesAtMut F.FnOnce f nest }
        requires stays { (nest : Self.Nesting) (answer : Result A Stop) (later : Self.Nesting) → FnOnceReturnsAtMut F.FnOnce f nest answer later → (Self.nesting later).place ≡ (Self.nesting nest).place }
        requires allowed { (nest : Self.Nesting) (answer : A) (later : Self.Nesting) → BeganNest (nested_of reads writes first) (Self.seat self) (Self.nesting nest) → FnOnceReturnsAtMut F.FnOnce f nest (Ok answer) later → Self.allows (Self.nesting later).acts }
        ensures who { who (Self.seat result.0) ≡ who (Self.seat self) }
        ensures ends { NestEnds Self.nesting (λ nest answer later. FnOnceReturnsAtMut F.FnOnce f nest answer later) reads writes first (Self.seat self) (Self.seat result.0) result.1 }
    {
        match self.begin_nested(rt, reads, writes, first) {
            Ok(nest) => {
                let mut nest = nest;
                let outcome = f(&mut nest);
                Self::conclude_nested(rt, nest, outcome)
            }
            Err((seat, stop)) => (seat, Err(stop)),
        }
    }

    /// One section that writes some of these and reads the others, as a whole or not at all. It begins with `first`, a part of them, and holds more once its
    /// closure has asked for it.
    ///
    /// # Errors
    ///
    /// What the closure answers; there is nothing to write, a set has members that the lock has not, or the first part is empty or no part of the others; or out
    /// of memory. Nothing was made then.
    final fn nested<R: Wait, A: Drop, F: FnOnce(&mut Self::Nesting) -> Result<A, Stop>>(
        &mut self,
        rt: &R,
        reads: ResourceSet,
        writes: ResourceSet,
        first: ResourceSet,
        f: F,
    ) -> Result<A, Stop>
        requires takes { (nest : Self.Nesting) → BeganNest (nested_of reads writes first) (Self.seat self.old) (Self.nesting nest) → FnOnceTakesAtMut F.FnOnce f nest }
        requires stays { (nest : Self.Nesting) (answer : Result A Stop) (later : Self.Nesting) → FnOnceReturnsAtMut F.FnOnce f nest answer later → (Self.nesting later).place ≡ (Self.nesting nest).place }
        requires allowed { (nest : Self.Nesting) (answer : A) (later : Self.Nesting) → BeganNest (nested_of reads writes first) (Self.seat self.old) (Self.nesting nest) → FnOnceReturnsAtMut F.FnOnce f nest (Ok answer) later → Self.allows (Self.nesting later).acts }
        ensures who { who (Self.seat self.new) ≡ who (Self.seat self.old) }
        ensures ends { NestEnds Self.nesting (λ nest answer later. FnOnceReturnsAtMut F.FnOnce f nest answer later) reads writes first (Self.seat self.old) (Self.seat self.new) result }
    {
        mem::replace_with(
            self,
            f,
            |own: Self, f: F| -> (Self, Result<A, Stop>)
                requires { ((nest : Self.Nesting) → BeganNest (nested_of reads writes first) (Self.seat own) (Self.nesting nest) → FnOnceTakesAtMut F.FnOnce f nest)
                    × ((nest : Self.Nesting) (answer : Result A Stop) (later : Self.Nesting) → FnOnceReturnsAtMut F.FnOnce f nest answer later → (Self.nesting later).place ≡ (Self.nesting nest).place)
                    × ((nest : Self.Nesting) (answer : A) (later : Self.Nesting) → BeganNest (nested_of reads writes first) (Self.seat own) (Self.nesting nest) → FnOnceReturnsAtMut F.FnOnce f nest (Ok answer) later → Self.allows (Self.nesting later).acts) }
                ensures who { who (Self.seat result.0) ≡ who (Self.seat own) }
                ensures ends { NestEnds Self.nesting (λ nest answer later. FnOnceReturnsAtMut F.FnOnce f nest answer later) reads writes first (Self.seat own) (Self.seat result.0) result.1 }
            { own.through_nested(rt, reads, writes, first, f) },
        )
    }
}

impl<'l, T: Law> Nests for SeatOver<'l, State<T, Plain>, T> {
    ghost use Rattle.rnlp_lock.specs.Nested.{NestFields};

    type Value = T;

    type Edit = T::Edit;

    type Nesting = Nesting<'l, T>;

    ghost seat = { λ seat. seat };

    ghost allows = { T.allows };

    ghost nesting = { λ nest. nest };

    fn begin_nested<R: Wait>(
        self,
        rt: &R,
        reads: ResourceSet,
        writes: ResourceSet,
        first: ResourceSet,
    ) -> Result<Nesting<'l, T>, (Self, Stop)> {
        let SeatOver { lock, pass, alloc } = self;
        match to_nested(&lock.groups, lock.all, reads, writes, first) {
            Ok(request) => {
                let start = Snapshot::of(&pass);
                match lock.rnlp.acquire(rt, alloc, pass, request) {
                    Ok(Guard::Nest(guard)) => {
                        let _ = guard.seat();
                        Ok(Nesting {
                            guard,
                            lock,
                            start,
                            reads: request.reads(),
                            writes: request.writes(),
                            first,
                            granted: first,
                            alloc,
                        })
                    }
                    Err((pass, _)) => Err((SeatOver { lock, pass, alloc }, Stop::NoMemory)),
                    _ => unreachable!(),
                }
            }
            Err(stop) => Err((SeatOver { lock, pass, alloc }, stop)),
        }
    }

    fn end_nested<R: Wait>(rt: &R, nest: Nesting<'l, T>) -> Result<Self, Nesting<'l, T>> {
        let Nesting {
            guard,
            lock,
            start,
            reads,
            writes,
            first,
            granted,
            alloc,
        } = nest;
        match guard.finish(rt, alloc) {
            Ok(pass) => Ok(SeatOver { lock, pass, alloc }),
            Err((guard, _)) => Err(Nesting {
                guard,
                lock,
                start,
                reads,
                writes,
                first,
                granted,
                alloc,
            }),
        }
    }

    fn discard_nested<R: Wait>(rt: &R, nest: Nesting<'l, T>) -> Self {
        let Nesting {
            guard,
            lock,
            start: _,
            reads: _,
            writes: _,
            first: _,
            granted: _,
            alloc,
        } = nest;
        let pass = guard.discard(rt);
        SeatOver { lock, pass, alloc }
    }
}
