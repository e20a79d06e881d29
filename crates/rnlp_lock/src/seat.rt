//! Seats of a lock.
ghost use Rattle.std.specs.Prelude.{◌≡◌, ℕ, IfOk, All, map};
ghost use Rattle.std.specs.Fork.{AcceptsEach, ChangesAt};
ghost use Rattle.rnlp_lock.specs.Laws.{HoldsOf};
ghost use Rattle.rlock.specs.Known.{Known};
ghost use Rattle.rnlp_lock.specs.Seats.{LockFields, Who, IsPassOf, AreAllOf, who, who_of};

use crate::asking::{to_read, to_write};
use crate::law::Law;
use crate::lock::{Lock, LockOver, Pass};
use crate::sits::Sits;
use crate::stop::Stop;
use crate::work::{Reading, Work, Writing};
use rclaim::Kind;
use rguard::Guard;
use rlock::Kept;
use rplain::Plain;
use rset::ResourceSet;
use rstate::State;
use std::alloc::{AllocError, Global};
use std::marker::Model;
use std::sync::Wait;
use std::thread;
use std::thread::Threads;

/// A state inside a gate whose seats keep a law.
pub trait Ruled: Kept {
    /// A pass of this lock, which rests and has recorded no more than the law allows.
    ghost is_pass: { LockFields → Known Self Self.Opening Self.Entry → Type 0 };
}

impl<T: Law> Ruled for State<T, Plain> {
    ghost is_pass = { IsPassOf T.allows (HoldsOf T.holds) };
}

/// A seat of a lock over a state inside a gate. [`Seat`] names the one that there is.
#[derive(Drop)]
pub struct SeatOver<'l, S: Ruled, T> {
    pub(crate) lock: &'l LockOver<S, T>,
    pub(crate) pass: rlock::Pass<S>,
    pub(crate) alloc: Global,
}

impl<'l, S: Ruled, T> Model for SeatOver<'l, S, T> {
    ghost use Rattle.rnlp_lock.specs.Seats.{SeatAt};
    ghost use Rattle.std.specs.Coded.{codes};
    ghost use Rattle.rclaim.specs.Codes.{set_code};

    ghost Value = { SeatAt S S.Opening S.Entry };

    ghost coded = { Prim.hlevel (codes, set_code) };

    ghost view = { λ a. record { lock = a.lock.now; pass = a.pass } };

    ghost invariant = { λ a. S.is_pass a.lock.now a.pass };
}

/// A seat of a lock, between two sections. It keeps the law, and may go to another thread.
pub type Seat<'l, T> = SeatOver<'l, State<T, Plain>, T>;

/// What a seat stays, whatever it does.
pub trait Stays {
    /// The value of a resource.
    type Value;

    /// Which seat it is, of which lock.
    ghost who: { Self → Who Self.Value };
}

impl<'l, T: Law> Stays for SeatOver<'l, State<T, Plain>, T> {
    type Value = T;

    ghost who = { λ seat. record { lock = seat.lock; gate = seat.pass.gate; number = seat.pass.number; opening = seat.pass.opening } };
}

impl<T: Law> LockOver<State<T, Plain>, T> {
    /// The seats of the lock, with their passes.
    ///
    /// # Errors
    ///
    /// Out of memory. The passes are dropped then.
    pub fn seats<'l>(
        &'l self,
        alloc: Global,
        passes: Vec<Pass<T>>,
    ) -> Result<Vec<Seat<'l, T>>, AllocError>
        requires each { All (IsPassOf T.allows (HoldsOf T.holds) self.now) passes.items }
        ensures { IfOk result (λ seats. map who seats.items ≡ map (who_of self.entry.now) passes.items) }
    {
        let mut seats = Vec::new(alloc);
        for pass in passes {
            seats.push(SeatOver {
                lock: self,
                pass,
                alloc,
            })?;
        }
        Ok(seats)
    }
}

/// The passes of seats.
///
/// # Errors
///
/// Out of memory. The seats are dropped then.
pub fn leave<'l, T: Law>(
    alloc: Global,
    lock: &Lock<T>,
    seats: Vec<Seat<'l, T>>,
) -> Result<Vec<Pass<T>>, AllocError>
    requires { AreAllOf lock.now (map who seats.items) }
    ensures each { IfOk result (λ passes. All (IsPassOf T.allows (HoldsOf T.holds) lock.now) passes.items) }
    ensures all { IfOk result (λ passes. map (who_of lock.now) passes.items ≡ map who seats.entry.items) }
{
    // For the proof: the clauses speak of the lock.
    let _ = lock;
    let mut passes = Vec::new(alloc);
    for seat in seats {
        let SeatOver {
            lock: _,
            pass,
            alloc: _,
        } = seat;
        passes.push(pass)?;
    }
    Ok(passes)
}

/// Runs a closure for each of these seats, each in a thread of its own, and joins them.
pub fn together<R: Threads + Sync, S: Stays + Send, F: Fn(usize, &mut S) + Sync>(
    rt: &R,
    seats: &mut Vec<S>,
    f: &F,
)
    requires accepts { AcceptsEach F.Fn f.now seats.old.items }
    requires stays { (k : ℕ) (seat later : S) → ChangesAt F.Fn f.now k seat later → S.who later ≡ S.who seat }
    ensures { map S.who seats.new.items ≡ map S.who seats.old.items }
{
    let threads = seats.len();
    if threads > 0 {
        thread::for_each_mut(rt, seats.as_mut_slice(), threads, f);
    }
}

impl<'l, T: Law> Sits for SeatOver<'l, State<T, Plain>, T> {
    ghost use Rattle.rnlp_lock.specs.Works.{WorkFields};

    type Value = T;

    type Edit = T::Edit;

    type Reading = Reading<'l, T>;

    type Writing = Writing<'l, T>;

    ghost seat = { λ seat. seat };

    ghost allows = { T.allows };

    ghost reading = { λ work. work };

    ghost writing = { λ work. work };

    fn begin_read<R: Wait>(self, rt: &R, set: ResourceSet) -> Result<Reading<'l, T>, (Self, Stop)> {
        let SeatOver { lock, pass, alloc } = self;
        match to_read(&lock.groups, lock.all, set) {
            Ok(request) => match lock.rnlp.acquire(rt, alloc, pass, request) {
                Ok(Guard::Read(guard)) => {
                    let _ = guard.seat();
                    Ok(Work {
                        guard,
                        lock,
                        reads: request.reads(),
                        writes: request.writes(),
                        alloc,
                    })
                }
                Err((pass, _)) => Err((SeatOver { lock, pass, alloc }, Stop::NoMemory)),
                _ => unreachable!(),
            },
            Err(stop) => Err((SeatOver { lock, pass, alloc }, stop)),
        }
    }

    fn end_read<R: Wait>(rt: &R, work: Reading<'l, T>) -> Self {
        let Work {
            guard,
            lock,
            reads: _,
            writes: _,
            alloc,
        } = work;
        let pass = guard.finish(rt);
        SeatOver { lock, pass, alloc }
    }

    fn begin_write<R: Wait>(
        self,
        rt: &R,
        kind: Kind,
        reads: ResourceSet,
        writes: ResourceSet,
    ) -> Result<Writing<'l, T>, (Self, Stop)> {
        let SeatOver { lock, pass, alloc } = self;
        match to_write(&lock.groups, lock.all, kind, reads, writes) {
            Ok(request) => match lock.rnlp.acquire(rt, alloc, pass, request) {
                Ok(Guard::Write(guard)) => {
                    let _ = guard.seat();
                    Ok(Work {
                        guard,
                        lock,
                        reads: request.reads(),
                        writes: request.writes(),
                        alloc,
                    })
                }
                Err((pass, _)) => Err((SeatOver { lock, pass, alloc }, Stop::NoMemory)),
                _ => unreachable!(),
            },
            Err(stop) => Err((SeatOver { lock, pass, alloc }, stop)),
        }
    }

    fn end_write<R: Wait>(rt: &R, work: Writing<'l, T>) -> Result<Self, Writing<'l, T>> {
        let Work {
            guard,
            lock,
            reads,
            writes,
            alloc,
        } = work;
        match guard.finish(rt, alloc) {
            Ok(pass) => Ok(SeatOver { lock, pass, alloc }),
            Err((guard, _)) => Err(Work {
                guard,
                lock,
                reads,
                writes,
                alloc,
            }),
        }
    }

    fn discard_write<R: Wait>(rt: &R, work: Writing<'l, T>) -> Self {
        let Work {
            guard,
            lock,
            reads: _,
            writes: _,
            alloc,
        } = work;
        let pass = guard.discard(rt);
        SeatOver { lock, pass, alloc }
    }
}
