//! One section under a guard: it writes records, or reads one.
ghost use Rattle.std.specs.Prelude.{◌≡◌, ◌<◌, ◌++◌, IsTrue, IfOk, IfErr};
ghost use Rattle.std.specs.FinSet.{empty, insert};
ghost use Rattle.rset.specs.declared.TheConstants.{RESOURCES};
ghost use Rattle.rexpand.specs.Groups.{no_groups};
ghost use Rattle.rguard.specs.Resting.{IsAt, Rests, MayWriteAll};
ghost use Rattle.rguard.specs.Guards.{Holding};
ghost use Rattle.rguard.specs.Sections.{write_of, read_of, HasEntered, MadeSection};
ghost use Rattle.bench_sections.specs.Sections.{one_added, request_of, acts_of, HasRead};

use rclaim::{Kind, Request};
use rguard::{Guard, ReadGuard, Rnlp, Seat, WriteGuard};
use rmodel::Machine;
use rset::ResourceSet;
use rvalue::{Edit, Ledger};
use std::alloc::Global;
use std::sync::Wait;

// A guard to write these resources; or the seat, if there was no memory or the set is empty.
fn to_write<'a, R: Wait, M: Machine>(
    rt: &R,
    alloc: Global,
    lock: &'a Rnlp<Ledger, M>,
    seat: Seat<Ledger, M>,
    set: ResourceSet,
) -> Result<WriteGuard<'a, Ledger, M>, Seat<Ledger, M>>
    requires { Rests (no_groups RESOURCES) lock.now seat }
    ensures at { IfOk result (λ guard. IsAt (no_groups RESOURCES) lock.entry.now guard.seat) }
    ensures writes { IfOk result (λ guard. MayWriteAll set guard.seat) }
    ensures entered { IfOk result (HasEntered (write_of set) seat) }
    ensures err { IfErr result (Rests (no_groups RESOURCES) lock.entry.now) }
{
    let none = ResourceSet::empty();
    // Reading a set shows the proof that it is a set of resources.
    let _ = set.len();
    let Ok(request) = Request::new(Kind::Write, none, set, none, 1, 0) else {
        return Err(seat);
    };
    match lock.acquire(rt, alloc, seat, request) {
        Ok(Guard::Write(guard)) => {
            // Reading its seat shows the proof what is known about every seat.
            let _ = guard.seat();
            Ok(guard)
        }
        Err((seat, _)) => Err(seat),
        _ => unreachable!(),
    }
}

// Adds 1 to each of these resources, by rising number, and answers whether each took it.
fn add_to_each<M: Machine>(
    alloc: Global,
    guard: &mut WriteGuard<'_, Ledger, M>,
    set: ResourceSet,
) -> bool
    requires { MayWriteAll set guard.old.seat }
    ensures seat { guard.new.seat ≡ guard.old.seat }
    ensures acts { IsTrue result → guard.new.acts ≡ guard.old.acts ++ one_added set }
{
    for l in set.iter() {
        match guard.edit(alloc, l, Edit::Add(1)) {
            Ok(true) => {}
            _ => return false,
        }
    }
    true
}

// A guard to read this resource; or the seat, if there was no memory.
fn to_read<'a, R: Wait, M: Machine>(
    rt: &R,
    alloc: Global,
    lock: &'a Rnlp<Ledger, M>,
    seat: Seat<Ledger, M>,
    place: u8,
) -> Result<ReadGuard<'a, Ledger, M>, Seat<Ledger, M>>
    requires rests { Rests (no_groups RESOURCES) lock.now seat }
    requires there { place < RESOURCES }
    ensures at { IfOk result (λ guard. IsAt (no_groups RESOURCES) lock.entry.now guard.seat) }
    ensures holds { IfOk result (λ guard. Holding guard.seat place) }
    ensures entered { IfOk result (HasEntered (read_of (insert empty place)) seat) }
    ensures err { IfErr result (Rests (no_groups RESOURCES) lock.entry.now) }
{
    let none = ResourceSet::empty();
    let set = ResourceSet::one(place);
    // For the proof, as in `to_write`.
    let _ = set.len();
    let Ok(request) = Request::new(Kind::Read, set, none, none, 1, 0) else {
        return Err(seat);
    };
    match lock.acquire(rt, alloc, seat, request) {
        Ok(Guard::Read(guard)) => {
            // For the proof, as in `to_write`.
            let _ = guard.seat();
            Ok(guard)
        }
        Err((seat, _)) => Err(seat),
        _ => unreachable!(),
    }
}

// One section that adds 1 to each of these resources. Answers whether all was done.
fn add_in<R: Wait, M: Machine>(
    rt: &R,
    alloc: Global,
    lock: &Rnlp<Ledger, M>,
    seat: Seat<Ledger, M>,
    set: ResourceSet,
) -> (Seat<Ledger, M>, bool)
    requires { Rests (no_groups RESOURCES) lock.now seat }
    ensures rests { Rests (no_groups RESOURCES) lock.now result.0 }
    ensures added { IsTrue result.1 → MadeSection (write_of set) (one_added set) seat result.0 }
{
    let mut guard = match to_write(rt, alloc, lock, seat, set) {
        Ok(guard) => guard,
        Err(seat) => return (seat, false),
    };
    let done = add_to_each(alloc, &mut guard, set);
    match guard.finish(rt, alloc) {
        Ok(seat) => (seat, done),
        Err((guard, _)) => (guard.discard(rt), false),
    }
}

// One section that reads this resource. Answers whether it was made, and found as many 1s in the ledger as edits.
fn read_in<R: Wait, M: Machine>(
    rt: &R,
    alloc: Global,
    lock: &Rnlp<Ledger, M>,
    seat: Seat<Ledger, M>,
    place: u8,
) -> (Seat<Ledger, M>, bool)
    requires rests { Rests (no_groups RESOURCES) lock.now seat }
    requires there { place < RESOURCES }
    ensures rests { Rests (no_groups RESOURCES) lock.now result.0 }
    ensures read { IsTrue result.1 → HasRead place seat result.0 }
{
    match to_read(rt, alloc, lock, seat, place) {
        Ok(guard) => {
            let ledger = guard.get(place);
            let agrees = ledger.balance == ledger.edits;
            (guard.finish(rt), agrees)
        }
        Err(seat) => (seat, false),
    }
}

/// One section: it adds 1 to each of these resources, or it reads resource 0. Answers whether all was done.
pub fn made_in<R: Wait, M: Machine>(
    rt: &R,
    alloc: Global,
    lock: &Rnlp<Ledger, M>,
    seat: Seat<Ledger, M>,
    set: ResourceSet,
    writes: bool,
) -> (Seat<Ledger, M>, bool)
    requires { Rests (no_groups RESOURCES) lock.now seat }
    ensures rests { Rests (no_groups RESOURCES) lock.now result.0 }
    ensures made { IsTrue result.1 → MadeSection (request_of writes set) (acts_of writes set) seat result.0 }
{
    if writes {
        add_in(rt, alloc, lock, seat, set)
    } else {
        read_in(rt, alloc, lock, seat, 0)
    }
}
